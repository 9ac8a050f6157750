// A reader over a lent record and a position.
#![tactic(auto)]

ghost use Rattle.std.specs.Prelude.{◌≡◌};
ghost use Rattle.reader.specs.Reader.{field_at};

// A field is a length byte and as many bytes after it: these stand from `start` on and are `len` many; `next` is the
// place after them.
#[derive(Clone, Copy, PartialEq, Eq)]
pub struct Field {
    pub start: usize,
    pub len: usize,
    pub next: usize,
}

// Why no field stands at a place.
#[derive(Clone, Copy, PartialEq, Eq)]
pub enum FieldError {
    // A length byte with fewer bytes after it.
    Short,
    // Nothing stands there.
    End,
}

#[derive(Clone, Copy)]
pub struct Reader<'a> {
    pub src: &'a [u8],
    pub at: usize,
}

impl<'a> Reader<'a> {
    // A reader at the front.
    pub fn new(src: &'a [u8]) -> Self
        ensures { (result.src ≡ src.entry) × (result.at ≡ 0) }
    {
        Reader { src, at: 0 }
    }

    // The same reader at another place.
    pub fn moved(self, at: usize) -> Self
        ensures { (result.src ≡ self.entry.src) × (result.at ≡ at) }
    {
        Reader { at, ..self }
    }

    // The field where the reader stands.
    #[tactic(auto, unfolding(crate::specs::Reader::field_at))]
    pub fn next(self) -> Result<Field, FieldError>
        ensures { result ≡ field_at self.entry.src.now self.entry.at }
    {
        let len = usize::from(*self.src.get(self.at).ok_or(FieldError::End)?);
        let start = self.at + 1;
        if self.src.len() - start < len {
            return Err(FieldError::Short);
        }
        Ok(Field {
            start,
            len,
            next: start + len,
        })
    }
}

// The field at a position of a slice, for callers that hold no reader.
pub fn field_at(s: &[u8], at: usize) -> Result<Field, FieldError>
    ensures { result ≡ field_at s.now at }
{
    Reader::new(s).moved(at).next()
}
