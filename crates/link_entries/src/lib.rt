// The entries beside a reply under C, laid out of the lent tables into rows of their own: the log's keys and masks, a server's badges and
// setpoints. They stand below what writes the frame of a link, so that an edit of them proves no frame.
#![tactic(auto)]

ghost use Rattle.std.specs.Prelude.{◌≡◌, ◌*◌, ◌≤◌, length};
ghost use Rattle.ranges.specs.Laid.{laid};
ghost use Rattle.tables.specs.Rows.{word_at};
ghost use Rattle.tables.specs.Layout.{entry_width, entry_mask, value_width, value_row, version_badge, version_setpoint};

use tables::{log, versions};

// The first entries of the log: the words of their keys, and their masks.
pub fn log_entries(log: &[u32], entries: usize, words: &mut [u32], masks: &mut [u32])
    requires { (entry_width * entries ≤ length log.now) × (entries ≤ length words.old) × (entries ≤ length masks.old) }
    ensures { (words.new ≡ laid (λ tag. word_at entry_width log.now tag 0) entries words.old) × (masks.new ≡ laid (entry_mask log.now) entries masks.old) }
{
    for tag in 0..entries {
        words[tag] = log::key_word(log, tag);
        masks[tag] = log::entry_mask(log, tag);
    }
}

// The first versions of a server: their badges, and their setpoints.
pub fn version_entries(
    values: &[u32],
    server: usize,
    entries: usize,
    badges: &mut [u32],
    setpoints: &mut [u32],
)
    requires { (value_width * value_row server entries ≤ length values.now) × (entries ≤ length badges.old)
        × (entries ≤ length setpoints.old) }
    ensures { (badges.new ≡ laid (version_badge values.now server) entries badges.old)
        × (setpoints.new ≡ laid (version_setpoint values.now server) entries setpoints.old) }
{
    // Kept: (d) beside log_entries: one loop for both would take a closure that answers a pair, for two lines each.
    for place in 0..entries {
        badges[place] = versions::version_badge(values, server, place);
        setpoints[place] = versions::version_setpoint(values, server, place);
    }
}
