// Memory that a line lends: a copy for a call to write to, and what is shown of it.
ghost use Rattle.std.specs.Prelude.{◌≡◌, ◌≤◌, length, take};
ghost use Rattle.replay_lines.specs.Lent.{most_lent, output};
ghost use Rattle.replay_page.specs.Page.{page};

use crate::fields::Field;
use crate::key::Key;

// The bytes stand in front.
pub fn copy_of(lent: &[u8]) -> [u8; 8192]
    requires { length lent.now ≤ most_lent }
    ensures { take (length lent.now) result ≡ lent.now }
{
    let mut copy = [0u8; 8192];
    arrays::put(&mut copy, 0, lent);
    copy
}

pub fn put_output(out: &mut [u8], at: usize, lent: &[u8]) -> usize
    ensures { page out.new result ≡ output lent.now (page out.old at) }
{
    crate::fields::put_field(out, at, lent, Field::Known(Key::Output, true))
}
