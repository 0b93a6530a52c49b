// The keys of a line, and their spellings.
ghost use Rattle.std.specs.Prelude.{◌≡◌, IfOk};

use keys::Key;
use lines::Line;
use std::alloc::{AllocError, Global};
use std::fmt;
use std::fmt::Write;

// The keys of a line, in order.
pub fn keys_of<K: Key, L: Line<K>>(heap: Global, line: &L) -> Result<Vec<K>, AllocError>
    ensures { IfOk result (λ v. v.items ≡ L.Line.keys line.now) }
{
    let mut keys = Vec::new(heap);
    for place in 1..=line.count() {
        keys.push(line.key_at(place).unwrap())?;
    }
    Ok(keys)
}

// The spelling of a key.
pub fn spell<K: Key>(heap: Global, key: &K) -> Result<Vec<u8>, AllocError>
    ensures { IfOk result (λ v. v.items ≡ K.Key.spelling key.now) }
{
    let mut spelling = vec![in heap; 0; K::LONGEST]?;
    let len = key.write(&mut spelling).unwrap();
    spelling.truncate(len);
    Ok(spelling)
}

// Bytes in small hex.
#[derive(Drop)]
struct Hex<'a>(&'a [u8]);

impl fmt::Display for Hex<'_> {
    fn fmt<W: fmt::Write>(&self, f: &mut fmt::Formatter<W>) -> fmt::Result {
        for byte in self.0 {
            write!(f, "{byte:02x}")?;
        }
        Ok(())
    }
}

// The keys of a line in order, each as its spelling in small hex behind a space.
pub fn order_text<K: Key, L: Line<K>>(heap: Global, line: &L) -> Result<String, AllocError> {
    let mut text = String::new(heap);
    for key in keys_of(heap, line)? {
        let spelling = spell(heap, &key)?;
        write!(text, " {}", Hex(&spelling))?;
    }
    Ok(text)
}
