// Maps of rows: bit k stands for row k.
ghost use Rattle.std.specs.Prelude.{◌≡◌, ◌+◌, ◌*◌, ◌<◌, ◌≤◌, length, Bool, if◌then◌else◌};
ghost use Rattle.letters.specs.Bytes.{map_of};
ghost use Rattle.writing.specs.Closures.{Computes};

// One bit more, below the others.
fn with_bit(map: u16, bit: bool) -> u16
    requires { map < 32768 }
    ensures { result ≡ (if bit then 1 else 0) + 2 * map }
{
    if bit { 2 * map + 1 } else { 2 * map }
}

// The rows that pass a test.
#[tactic(auto, using(crate::proofs::RowMaps::map_start, crate::proofs::RowMaps::map_step, crate::proofs::RowMaps::map_all))]
pub(crate) fn map_of<T, F: Fn(&T) -> bool>(rows: &[T], passes: F) -> u16
    requires callable { F.IsAlwaysCallable passes }
    requires few { length rows.now ≤ 16 }
    ensures map { (test : T → Bool) → Computes F.Fn passes test → result ≡ map_of test rows.now }
    ensures byte { length rows.now ≤ 8 → result < 256 }
{
    let mut map = 0;
    for row in rows.iter().rev() {
        map = with_bit(map, passes(row));
    }
    map
}
