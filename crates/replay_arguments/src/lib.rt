// What the arguments of `replay` ask for.
#![tactic(auto)]

ghost use Rattle.std.specs.Prelude.{◌≡◌};
ghost use Rattle.replay_arguments.specs.Arguments.{asked_by};

// What each line gives, or states too.
#[derive(Clone, Copy, PartialEq, Eq)]
pub enum Asked {
    Lines,
    States,
}

// The place of an argument that is not known.
#[derive(Clone, Copy, PartialEq, Eq)]
pub struct UnknownArgument(pub usize);

#[tactic(auto, using(arrays::proofs::Laws::same_is_pointwise), unfolding(crate::specs::Arguments::asked_by))]
pub fn asked_by(count: usize, first: &[u8]) -> Result<Asked, UnknownArgument>
    ensures { result ≡ asked_by count first.now }
{
    if count < 2 {
        Ok(Asked::Lines)
    } else if first != b"--state".as_slice() {
        Err(UnknownArgument(1))
    } else if count < 3 {
        Ok(Asked::States)
    } else {
        Err(UnknownArgument(2))
    }
}
