// The draw of a code from lent random bytes.
#![tactic(auto)]

ghost use Rattle.std.specs.Prelude.{◌≡◌, ◌^◌, ◌≤◌};
ghost use Rattle.arrays.specs.Arrays.{padded};
ghost use Rattle.draw.specs.Draw.{first_below, digits, drawn};

// The first whole group below the limit.
fn first_below(s: &[u8], limit: u32) -> Option<u32>
    ensures { result ≡ first_below limit s.now }
{
    let (groups, _) = s.as_chunks::<4>();
    for g in groups {
        let v = u32::from_le_bytes(*g);
        if v < limit {
            return Some(v);
        }
    }
    None
}

// The last n digits of v, written from the last to the first.
fn code_of(v: u32, n: usize) -> [u8; 9]
    requires { n ≤ 9 }
    ensures { result ≡ padded 9 0 (digits v n) }
{
    let mut code = [0u8; 9];
    let mut rest = v;
    for k in (0..n).rev() {
        code[k] = b'0' + (rest % 10) as u8;
        rest /= 10;
    }
    code
}

// The digits in ASCII, with zeros past them, of the code of n digits that the bytes draw; none if no group is below the
// limit. The gate asks for 1 to 9 digits only. Above 9 there is no code, and for n = 0 the same formula gives a code
// without digits.
#[tactic(auto, using(crate::proofs::Laws::ten_pos), unfolding(crate::specs::Draw::drawn, crate::specs::Draw::draw_limit))]
pub fn draw(random: &[u8], n: usize) -> Option<[u8; 9]>
    ensures { result ≡ drawn random.now n }
{
    if n > 9 {
        return None;
    }
    let space = 10u32.pow(n as u32);
    let v = first_below(random, u32::MAX - u32::MAX % space)?;
    Some(code_of(v % space, n))
}
