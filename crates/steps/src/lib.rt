// Laws of every step of a unit, each held by the contract of a function.
#![tactic(auto)]

ghost use Rattle.steps.specs.Laws.{SeatStays, ViewNeverFalls, ResultStays, OrderStays, RegisteredPlacesStay, RegisteredPlacesNeverGrow, BasisNeverFalls, ProposalStaysInItsView, OneVoiceAView, ConfirmOnlyInThePresentView, ResultSentWhenTaken, MoveOnlyToALaterView, ReceiptOnlyBeforeAnOrder, PlaceStays, StandingNeverFalls, EndedLockStays, OtherPlacesStay, OfficeOrdersOnce};
ghost use Rattle.steps.specs.Voices.{AtMostOneVoiceAView};
ghost use Rattle.steps.specs.RangeLaws.{NewControllersAreInRange, NewLocksAreInRange, ControllersStayInRange, ControllersSendInRange, OwnBasisIsNotLater, LocksStayInRange, LocksSendInRange, OfficeSendsInRange, LettersSentAreReadBack};
ghost use Rattle.steps.specs.Outputs.{OutputIsReadBack, LittleIsSent, RoomSuffices};

// A controller keeps its seat.
#[tactic(auto, using(crate::proofs::Controllers::seat_stays))]
pub fn seat_stays() -> bool
    ensures { SeatStays }
{
    true
}

// A view never falls.
#[tactic(auto, using(crate::proofs::Controllers::view_never_falls))]
pub fn view_never_falls() -> bool
    ensures { ViewNeverFalls }
{
    true
}

// A result, once held, stays.
#[tactic(auto, using(crate::proofs::Controllers::result_stays))]
pub fn result_stays() -> bool
    ensures { ResultStays }
{
    true
}

// An order, once held, stays.
#[tactic(auto, using(crate::proofs::Controllers::order_stays))]
pub fn order_stays() -> bool
    ensures { OrderStays }
{
    true
}

// A place, once registered, stays registered.
#[tactic(auto, using(crate::proofs::Controllers::registered_places_stay))]
pub fn registered_places_stay() -> bool
    ensures { RegisteredPlacesStay }
{
    true
}

// Once an order is held, no place is registered any more.
#[tactic(auto, using(crate::proofs::Controllers::registered_places_never_grow))]
pub fn registered_places_never_grow() -> bool
    ensures { RegisteredPlacesNeverGrow }
{
    true
}

// A basis is never lost, and its view never falls.
#[tactic(auto, using(crate::proofs::Controllers::basis_never_falls))]
pub fn basis_never_falls() -> bool
    ensures { BasisNeverFalls }
{
    true
}

// A held proposal stays while the view stays the same.
#[tactic(auto, using(crate::proofs::Controllers::proposal_stays))]
pub fn proposal_stays_in_its_view() -> bool
    ensures { ProposalStaysInItsView }
{
    true
}

// At most one proposal or assent is sent in a view.
pub fn one_voice_a_view() -> bool
    ensures { OneVoiceAView }
{
    true
}

// In a whole row of steps at most one proposal or assent is sent in each view.
pub fn at_most_one_voice_a_view() -> bool
    ensures { AtMostOneVoiceAView }
{
    true
}

// A confirm is sent only in the present view, and of the held proposal.
#[tactic(auto, using(crate::proofs::Voices::confirm_only_in_the_present_view))]
pub fn confirm_only_in_the_present_view() -> bool
    ensures { ConfirmOnlyInThePresentView }
{
    true
}

// A result is sent only when it is taken.
#[tactic(auto, using(crate::proofs::Voices::result_sent_when_taken))]
pub fn result_sent_when_taken() -> bool
    ensures { ResultSentWhenTaken }
{
    true
}

// A move is sent only to a later view, with the basis that is held.
#[tactic(auto, using(crate::proofs::Voices::move_only_to_a_later_view))]
pub fn move_only_to_a_later_view() -> bool
    ensures { MoveOnlyToALaterView }
{
    true
}

// A receipt is sent only before an order is held, for a place that is registered then.
#[tactic(auto, using(crate::proofs::Voices::receipt_only_before_an_order))]
pub fn receipt_only_before_an_order() -> bool
    ensures { ReceiptOnlyBeforeAnOrder }
{
    true
}

// A lock keeps its place.
#[tactic(auto, using(crate::proofs::Locks::place_stays))]
pub fn place_stays() -> bool
    ensures { PlaceStays }
{
    true
}

// The standing of a lock never goes back.
#[tactic(auto, using(crate::proofs::Locks::standing_never_falls))]
pub fn standing_never_falls() -> bool
    ensures { StandingNeverFalls }
{
    true
}

// A lock that has ended stays as it is, and the number in force at its place too.
pub fn ended_lock_stays() -> bool
    ensures { EndedLockStays }
{
    true
}

// A lock touches only its own place of the board.
#[tactic(auto, using(crate::proofs::Locks::other_places_stay))]
pub fn other_places_stay() -> bool
    ensures { OtherPlacesStay }
{
    true
}

// The office orders once.
#[tactic(auto, using(crate::proofs::Locks::office_orders_once))]
pub fn office_orders_once() -> bool
    ensures { OfficeOrdersOnce }
{
    true
}

// A new controller is within range.
pub fn new_controllers_are_in_range() -> bool
    ensures { NewControllersAreInRange }
{
    true
}

// A new lock is within range.
#[tactic(auto, using(crate::proofs::Within::new_locks_are_in_range))]
pub fn new_locks_are_in_range() -> bool
    ensures { NewLocksAreInRange }
{
    true
}

// A controller within range stays so.
pub fn controllers_stay_in_range() -> bool
    ensures { ControllersStayInRange }
{
    true
}

// What a controller within range sends is within range.
#[tactic(auto, using(crate::proofs::Within::controllers_send_in_range))]
pub fn controllers_send_in_range() -> bool
    ensures { ControllersSendInRange }
{
    true
}

// The own basis of a controller within range is of the present view or an earlier one.
#[tactic(auto, using(crate::proofs::Within::own_basis_is_not_later))]
pub fn own_basis_is_not_later() -> bool
    ensures { OwnBasisIsNotLater }
{
    true
}

// A lock within range stays so.
pub fn locks_stay_in_range() -> bool
    ensures { LocksStayInRange }
{
    true
}

// What a lock within range sends is within range.
#[tactic(auto, using(crate::proofs::Within::locks_send_in_range))]
pub fn locks_send_in_range() -> bool
    ensures { LocksSendInRange }
{
    true
}

// What the office sends is within range.
#[tactic(auto, using(crate::proofs::Within::office_sends_in_range))]
pub fn office_sends_in_range() -> bool
    ensures { OfficeSendsInRange }
{
    true
}

// The letters that the units send are read back from their bytes.
#[tactic(auto, using(crate::proofs::Within::letters_sent_are_read_back))]
pub fn letters_sent_are_read_back() -> bool
    ensures { LettersSentAreReadBack }
{
    true
}

// Reading the output buffer of a served call gives the letters sent.
#[tactic(auto, using(crate::proofs::Outputs::output_is_read_back))]
pub fn output_is_read_back() -> bool
    ensures { OutputIsReadBack }
{
    true
}

// 253 bytes hold all that a unit within range sends at a step.
#[tactic(auto, using(crate::proofs::Within::little_is_sent))]
pub fn little_is_sent() -> bool
    ensures { LittleIsSent }
{
    true
}

// A call of a unit within range that has its room leaves the unit as its rule says.
#[tactic(auto, using(crate::proofs::Outputs::room_suffices))]
pub fn room_suffices() -> bool
    ensures { RoomSuffices }
{
    true
}
