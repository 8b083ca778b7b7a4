// Clearing the scratch buffer.
ghost use Rattle.std.specs.Prelude.{◌≡◌};
ghost use Rattle.seals.specs.Scratch.{scratch_after};

// Leaves the first 24 bytes zero; a buffer that is too small is not touched.
#[tactic(auto, unfolding(crate::specs::Scratch::cleared))]
pub fn clear(scratch: &mut [u8])
    ensures { scratch.new ≡ scratch_after scratch.old }
{
    if let Some(room) = scratch.first_chunk_mut::<24>() {
        room.fill(0);
    }
}
