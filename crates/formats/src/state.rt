// Which field comes next: a frame's fields are the three of its header, the six of its fixed body, and four for each entry.
ghost use Rattle.std.specs.Prelude.{◌≡◌, ◌<◌, ◌≤◌, cond, eqb};
ghost use Rattle.frame_table.specs.Table.{number_place, sorts};
ghost use Rattle.formats.specs.Format.{sort_of, field_of, left_after, place_after, next_of, start};

use frame_table::Field;

// What is known ahead of a field: the kind and the client once they are read, the value before it, how many fields are left
// (until the number of entries is read, of the header and the fixed body alone), and its place in the table.
#[derive(Clone, Copy)]
pub struct State {
    pub kind: u32,
    pub client: u32,
    pub before: u32,
    pub left: usize,
    pub place: usize,
}

pub fn first() -> State
    ensures { result ≡ start }
{
    State {
        kind: 0,
        client: 0,
        before: 0,
        left: frame_table::FIXED_FIELDS,
        place: 0,
    }
}

// The next field; `sort` is what it holds.
pub fn field_at(sort: u8, state: State) -> Field
    requires { (sort ≡ sort_of state) × (sort < sorts) }
    ensures { (result ≡ field_of state) × (result.width ≤ 32) }
{
    let plain = frame_table::limits_of(sort);
    let width = plain.width;
    let least = frame_table::least_of(sort, plain.least, state.client);
    let most = frame_table::most_of(sort, plain.most, state.client, state.before);
    Field { width, least, most }
}

// A value that is taken over at one place and kept at the others.
fn taken_at(wanted: usize, place: usize, new: u32, old: u32) -> u32
    ensures { result ≡ cond (eqb place wanted) new old }
{
    if place == wanted { new } else { old }
}

// How many fields are left behind this one; `sort` is what it holds.
fn left_after(sort: u8, state: State, value: u32) -> usize
    requires { (0 < state.left) × (sort ≡ sort_of state) }
    ensures { result ≡ left_after state value }
{
    if state.place == frame_table::MANY {
        return frame_table::ENTRY_FIELDS * frame_table::entries_in(sort, value);
    }
    state.left - 1
}

// The place behind a place: behind an entry's last field comes the next entry's first.
pub fn place_after(place: usize) -> usize
    requires { place ≤ number_place }
    ensures { result ≡ place_after place }
{
    if place == frame_table::NUMBER {
        return frame_table::ENTRY;
    }
    place + 1
}

// The state behind a field with this value; `sort` is what the field holds.
pub fn next(sort: u8, state: State, value: u32) -> State
    requires { (0 < state.left) × (state.place ≤ number_place) × (sort ≡ sort_of state) }
    ensures { result ≡ next_of state value }
{
    let place = state.place;
    let kind = taken_at(0, place, value, state.kind);
    let client = taken_at(1, place, value, state.client);
    let left = left_after(sort, state, value);
    let after = place_after(place);
    State {
        kind,
        client,
        before: value,
        left,
        place: after,
    }
}
