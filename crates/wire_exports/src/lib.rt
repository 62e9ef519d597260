// What other languages call, on numbers and slices: the frame of a link and the register's listing, on any tables.
// An answer crosses as a number: the frame's length or how many rows were laid, or for a refusal 2^64 - 1 less its number.
#![tactic(auto)]

ghost use Rattle.std.specs.Prelude.{◌≡◌};
ghost use Rattle.tables.specs.Tables.{tables_of};
ghost use Rattle.causes.specs.Numbers.{number_of};
ghost use Rattle.frames.specs.Results.{length_by};
ghost use Rattle.listing.specs.Listed.{listed_by};
ghost use Rattle.listing.specs.Register.{list_register};
ghost use Rattle.wire.specs.Sending.{link_frame};
ghost use Rattle.wire_exports.specs.Numbers.{refused_number, written_number, listed_number, numbered, frame_numbered, list_numbered};

use causes::Refusal;
use tables::lent::Lent;

// A refusal as a number.
fn refused(refusal: Refusal) -> u64
    ensures { result ≡ refused_number (number_of refusal) }
{
    u64::MAX - refusal.number() as u64
}

// A count, or the refusal, as a number.
fn counted_number(counted: Result<usize, Refusal>) -> u64
    ensures written { result ≡ written_number (length_by counted) }
    ensures listed { result ≡ listed_number (listed_by counted) }
{
    match counted {
        Ok(count) => count as u64,
        Err(refusal) => refused(refusal),
    }
}

// Writes the frame of the link of a client and a target into the lent bytes.
#[unsafe(no_mangle)]
pub extern "C" fn wire_write_link_frame(
    counts: &[u32],
    clients: &[u32],
    links: &[u32],
    keys: &[u32],
    values: &[u32],
    log: &[u32],
    writes: &[u32],
    reads: &[u32],
    client: u32,
    target: u32,
    bytes: &mut [u8],
) -> u64
    ensures { numbered result bytes.new
        ≡ frame_numbered (link_frame client target
        (tables_of counts.now clients.now links.now keys.now values.now
        log.now writes.now reads.now)
        bytes.old) }
{
    let t = Lent {
        counts,
        clients,
        links,
        keys,
        values,
        log,
        writes,
        reads,
    };
    counted_number(link_frames::write_link_frame(&t, client, target, bytes))
}

// Lists the register: its rows at the front of the lent list.
#[unsafe(no_mangle)]
pub extern "C" fn wire_list_register(
    counts: &[u32],
    clients: &[u32],
    links: &[u32],
    keys: &[u32],
    values: &[u32],
    log: &[u32],
    writes: &[u32],
    reads: &[u32],
    list: &mut [u32],
) -> u64
    ensures { numbered result list.new
        ≡ list_numbered (list_register
        (tables_of counts.now clients.now links.now keys.now values.now
        log.now writes.now reads.now)
        list.old) }
{
    let t = Lent {
        counts,
        clients,
        links,
        keys,
        values,
        log,
        writes,
        reads,
    };
    counted_number(register_listing::list_register(&t, list))
}
