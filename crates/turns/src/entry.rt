// Page records with their keys read.
ghost use Rattle.std.specs.Prelude.{◌≡◌};
ghost use Rattle.logs.specs.Pages.{record_with};
ghost use Rattle.turns.specs.Onward.{page_left, read_by, Advanced};

use keys::{Denial, Key};
use logs::{PageReader, PageRecord};

// A page record with its key in the place of the spelling.
fn keyed<K: Key>(given: PageRecord<&[u8]>, key: K) -> PageRecord<K>
    ensures { result ≡ record_with given.entry key }
{
    given.with_key(key)
}

// The next record of a page, with its key read, or none at the end.
pub fn next_entry<K: Key>(page: &mut PageReader<'_>) -> Result<Option<PageRecord<K>>, Denial>
    ensures read { page_left K.Key.own page.old ≡ read_by K.Key.own result (page_left K.Key.own page.new) }
    ensures advanced { Advanced result page.old page.new }
{
    let Some(given) = page.next::<K>()? else {
        return Ok(None);
    };
    let key = K::read(given.spelling())?;
    Ok(Some(keyed(given, key)))
}
