// The page's side: its first keys, and its requests one by one.
ghost use Rattle.std.specs.Prelude.{◌≡◌};
ghost use Rattle.turns.specs.Onward.{EntryTaken, ReadOn, Loads, ServesAll};

use bench::{Loading, Running};
use keys::{Denial, Key};
use lines::Line;
use logs::{Fault, Log, PageReader, PageRecord, PlanReader, Request};
use turns::{next_entry, said_of, serve};

// The next record of a page, with its key read, or none at the end.
fn next_record<K: Key>(page: &mut PageReader<'_>) -> Result<Option<PageRecord<K>>, Fault>
    ensures { EntryTaken K.Key.own result page.old page.new }
{
    let at = page.passed() + 1;
    said_of(Log::Page, at, next_entry::<K>(page))
}

// Loads the first keys of a page, and gives its first request, or none where it has none.
pub(crate) fn load_all<K: Key, H: Line<K>, R: Line<K>>(
    bench: &mut Loading,
    house: &mut H,
    rival: &mut R,
    page: &mut PageReader<'_>,
) -> Result<Option<Request<K>>, Fault>
    ensures { Loads K.Key.own H.Line R.Line house.old rival.old bench.old.ledger page.old result house.new rival.new bench.new.ledger page.new }
{
    loop {
        let Some(entry) = next_record::<K>(page)? else {
            return Ok(None);
        };
        match entry {
            PageRecord::Request(asked) => return Ok(Some(asked)),
            PageRecord::First(key) => {
                let loaded = bench.load(house, rival, key);
                said_of(Log::Page, page.passed(), loaded)?;
            }
        }
    }
}

// The next request of a page, or none at its end; the reader gives no first key behind a request.
fn next_request<K: Key>(page: &mut PageReader<'_>) -> Result<Option<Request<K>>, Fault>
    ensures { ReadOn K.Key.own result page.old page.new }
{
    match next_record::<K>(page)? {
        None => Ok(None),
        Some(PageRecord::Request(asked)) => Ok(Some(asked)),
        Some(PageRecord::First(_)) => said_of(Log::Page, page.passed(), Err(Denial::Layout)),
    }
}

// Serves all requests of a page, from the first, which was read, to the page's end.
pub(crate) fn serve_all<K: Key, H: Line<K>, R: Line<K>>(
    bench: &mut Running,
    house: &mut H,
    rival: &mut R,
    page: &mut PageReader<'_>,
    plan: &mut PlanReader<'_>,
    first: Option<Request<K>>,
) -> Result<(), Fault>
    ensures { ServesAll K.Key.own H.Line R.Line first house.old rival.old bench.old.ledger page.old plan.old result house.new rival.new bench.new.ledger plan.new }
{
    let mut next = first;
    while let Some(asked) = next {
        serve(bench, house, rival, asked, page.passed(), plan)?;
        next = next_request::<K>(page)?;
    }
    Ok(())
}
