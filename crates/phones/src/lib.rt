// Phone ids of at most 32 bytes, and the list of at most 32 of them, packed: the ids end to end, their lengths beside them.
// What stands past a length or a count is not looked at, and what would run past an array is cut at its end. A list that a
// function makes is canonical: zeros past the last id and past the last length.
#![tactic(auto)]

ghost use Rattle.std.specs.Prelude.{◌≡◌, [], ◌∷◌, ◌++◌, min, ◌<◌, ◌≤◌, length, map, IsTrue, position};
ghost use Rattle.arrays.specs.Arrays.{padded, same_bytes};
ghost use Rattle.phones.specs.Ids.{any_in, joined, pushed, room_for};
ghost use Rattle.phones.specs.Ids as Ids;
ghost use Rattle.phones.specs.Phones.{id_bytes, id_of, made_id, id_in_range, ids_left, phones_of, list_of, list_in_range, laid};

// An id of at most 32 bytes: a phone's, or a method's. Memory is fixed, so an array with its length.
#[derive(Clone, Copy)]
pub struct ShortId {
    pub bytes: [u8; 32],
    pub len: usize,
}

impl ShortId {
    // The bytes in use.
    pub fn used(&self) -> &[u8]
        ensures value { result.now ≡ id_bytes self.now }
        ensures short { length result.now < 33 }
    {
        &self.bytes[..self.len.min(32)]
    }
}

// As the paper lays a list: an array of bytes, an array of lengths, a count. Memory is fixed.
#[derive(Clone, Copy)]
pub struct PhoneList {
    pub bytes: [u8; 1024],
    pub lens: [u8; 32],
    pub count: usize,
}

impl PhoneList {
    // The ids, in their order.
    pub fn ids(&self) -> PackedIds<'_>
        ensures value { ids_left result ≡ phones_of self.now }
        ensures few { length (phones_of self.now) < 33 }
        ensures within { length (joined (phones_of self.now)) < 1025 }
    {
        PackedIds {
            lens: &self.lens[..self.count.min(32)],
            bytes: &self.bytes,
        }
    }
}

// Ids that lie end to end, the next one first: as long as their lengths say, and cut at the end of the bytes.
#[derive(Clone, Copy)]
pub struct PackedIds<'a> {
    pub lens: &'a [u8],
    pub bytes: &'a [u8],
}

impl<'a> Iterator for PackedIds<'a> {
    ghost use Rattle.std.specs.Iterator.{item_count};
    ghost use Rattle.phones.specs.Phones.{ids_left, GivesId};

    type Item = &'a [u8];

    ghost next_gives = { GivesId };

    ghost remaining = { item_count ids_left };

    fn next(&mut self) -> Option<&'a [u8]> {
        let (len, lens) = self.lens.split_first()?;
        let (id, bytes) = self.bytes.split_at(part(*len, self.bytes.len()));
        self.lens = lens;
        self.bytes = bytes;
        Some(id)
    }
}

// A canonical list that ids are put into, and where its ids end.
#[derive(Clone, Copy)]
pub struct Packing {
    pub list: PhoneList,
    end: usize,
    ghost canonical: { list ≡ list_of (phones_of list) },
    ghost ends: { end ≡ length (joined (phones_of list)) },
    ghost within: { end < 1025 },
    ghost few: { list.count < 33 },
}

impl Packing {
    pub fn new() -> Packing
        ensures { phones_of result.list ≡ [] }
    {
        Packing {
            list: empty_list(),
            end: 0,
        }
    }

    // The ids of a list, their bytes at once.
    fn of(l: &PhoneList) -> Packing
        ensures { phones_of result.list ≡ phones_of l.now }
    {
        let (lens, end) = measured(l.ids());
        let list = PhoneList {
            bytes: over_zeros(&l.bytes[..end]),
            lens,
            count: l.count.min(32),
        };
        Packing { list, end }
    }

    // Whether there is a place and the bytes for an id.
    pub fn has_room(&self, id: &[u8]) -> bool
        ensures { result ≡ room_for id.now (phones_of self.now.list) }
    {
        self.list.count < 32 && self.end + id.len() <= 1024
    }

    // One id more, where `has_room` says yes.
    pub fn push(&mut self, id: &[u8])
        requires byte { length id.now < 256 }
        requires room { IsTrue (room_for id.now (phones_of self.old.list)) }
        ensures { phones_of self.new.list ≡ phones_of self.old.list ++ (id.now ∷ []) }
    {
        arrays::put(&mut self.list.bytes, self.end, id);
        self.list.lens[self.list.count] = id.len() as u8;
        self.list.count += 1;
        self.end += id.len();
    }
}

// A length or a count, at most 32.
pub fn clamp(n: usize) -> usize
    ensures { result ≡ min n 32 }
{
    n.min(32)
}

// Whether an id is the byte string `s`, of any length.
pub fn id_is(p: ShortId, s: &[u8]) -> bool
    ensures { result ≡ same_bytes (id_bytes p) s.now }
{
    arrays::same_bytes(p.used(), s)
}

// A string with zeros past it.
fn over_zeros<const N: usize>(s: &[u8]) -> [u8; N]
    requires { length s.now ≤ N }
    ensures { result ≡ padded N 0 s.now }
{
    let mut bytes = [0u8; N];
    bytes[..s.len()].copy_from_slice(s);
    bytes
}

fn id_of(s: &[u8]) -> ShortId
    requires { length s.now < 33 }
    ensures { result ≡ id_of s.now }
{
    ShortId {
        bytes: over_zeros(s),
        len: s.len(),
    }
}

// A byte string as an id; none above 32 bytes.
pub fn make_id(s: &[u8]) -> Option<ShortId>
    ensures { result ≡ made_id s.now }
{
    if 32 < s.len() { None } else { Some(id_of(s)) }
}

// The same id with zeros past its length.
pub fn clean(p: ShortId) -> ShortId
    ensures { result ≡ id_of (id_bytes p) }
{
    id_of(p.used())
}

// Whether the length is at most 32.
pub fn id_in_range(p: ShortId) -> bool
    ensures { result ≡ id_in_range p }
{
    p.len <= 32
}

// How long the next id of a list is: its length `n`, cut where only `rest` bytes are left. It still fits a byte.
fn part(n: u8, rest: usize) -> usize
    ensures { (result ≡ min n rest) × (result < 256) }
{
    usize::from(n).min(rest)
}

pub fn empty_list() -> PhoneList
    ensures { result ≡ list_of [] }
{
    PhoneList {
        bytes: [0; 1024],
        lens: [0; 32],
        count: 0,
    }
}

pub fn count(l: PhoneList) -> usize
    ensures { result ≡ length (phones_of l) }
{
    clamp(l.count)
}

// The lengths as they were cut, zeros past them, and where the ids end.
fn measured(ids: PackedIds<'_>) -> ([u8; 32], usize)
    requires { length (ids_left ids) < 33 }
    ensures lens { result.0 ≡ padded 32 0 (map length (ids_left ids.entry)) }
    ensures end { result.1 ≡ length (joined (ids_left ids.entry)) }
{
    let mut lens = [0u8; 32];
    let mut end = 0;
    for (i, id) in ids.enumerate() {
        lens[i] = id.len() as u8;
        end += id.len();
    }
    (lens, end)
}

// The place of the first id that is `s`.
pub fn first_at(mut ids: PackedIds<'_>, s: &[u8]) -> Option<usize>
    ensures { result ≡ position (λ p. same_bytes p s.now) (ids_left ids.entry) }
{
    ids.position(|id| arrays::same_bytes(id, s))
}

// Whether the byte string `s` is one of the ids.
pub fn found(mut ids: PackedIds<'_>, s: &[u8]) -> bool
    ensures { result ≡ Ids.contains s.now (ids_left ids.entry) }
{
    ids.any(|id| arrays::same_bytes(id, s))
}

// Whether the byte string `s` is in the list.
pub fn contains(l: PhoneList, s: &[u8]) -> bool
    ensures { result ≡ Ids.contains s.now (phones_of l) }
{
    found(l.ids(), s)
}

// Whether an id is in the list.
pub fn contains_id(l: PhoneList, p: ShortId) -> bool
    ensures { result ≡ Ids.contains (id_bytes p) (phones_of l) }
{
    found(l.ids(), p.used())
}

// Whether some id of the list is in the other one.
pub fn any_in(l: PhoneList, other: PhoneList) -> bool
    ensures { result ≡ any_in (phones_of other) (phones_of l) }
{
    l.ids().any(|id| found(other.ids(), id))
}

// The same ids in canonical form.
pub fn canonical(l: PhoneList) -> PhoneList
    ensures { result ≡ list_of (phones_of l) }
{
    Packing::of(&l).list
}

// The list with one id more, if there is room.
pub fn append(l: PhoneList, p: ShortId) -> PhoneList
    ensures { result ≡ laid l (pushed (id_bytes p) (phones_of l)) }
{
    // Of a full list nothing is copied.
    if 32 <= l.count {
        return l;
    }
    let id = p.used();
    let mut packing = Packing::of(&l);
    if packing.has_room(id) {
        packing.push(id);
        packing.list
    } else {
        l
    }
}

// Whether the count, and each length in use, are at most 32.
pub fn list_in_range(l: PhoneList) -> bool
    ensures { result ≡ list_in_range l }
{
    if 32 < l.count {
        return false;
    }
    // For speed, as every call of the gate comes here five times: the lengths are copied out, since a slice of the list's own makes the
    // compiler copy the whole list, and they are tested by a loop, since `all` takes twice as long on a full list (docs/LOOK-BACK.md).
    let lens = l.lens;
    for n in &lens[..l.count] {
        if 32 < *n {
            return false;
        }
    }
    true
}
