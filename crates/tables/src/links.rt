// The links: what the wire holds between a client and a target. A row of four words: kind, key, number, badge.
ghost use Rattle.std.specs.Prelude.{◌≡◌, ◌+◌, ◌<◌, [], ◌∷◌, length};
ghost use Rattle.std.proofs.lemmas.List.Edits.{sets};
ghost use Rattle.keys.specs.Keys.{key_word};
ghost use Rattle.tables.specs.Rows.{HasRow};
ghost use Rattle.tables.specs.Links.{link_width, link_row, link_word, link_at, put_link, is_empty};

use keys::Key;

// What a request or a reply carries. The number is the setpoint, mask, tag or n; the badge goes with a setpoint; what a message does not carry
// is 0.
#[derive(Clone, Copy)]
pub struct Contents {
    pub key: Key,
    pub number: u32,
    pub badge: u32,
}

// The contents of a link that holds none: its words are 0.
const NOTHING: Contents = Contents {
    key: Key::OPENING,
    number: 0,
    badge: 0,
};

#[derive(Clone, Copy)]
pub enum Content {
    Nothing,
    Request(Contents),
    Reply(Contents),
    Lost,
}

// Kept: (a) the language form of docs/SPECIFICATION.md: a link is a struct that holds an enum whose cases carry a struct.
#[derive(Clone, Copy)]
pub struct Link {
    pub content: Content,
}

pub const WIDTH: usize = 4;

pub const KIND: usize = 0;

pub const KEY: usize = 1;

pub const NUMBER: usize = 2;

pub const BADGE: usize = 3;
// The targets of a client: servers 0 to 15, and the coordinator.
pub const TARGETS: usize = 17;

pub const COORDINATOR: usize = 16;

#[tactic(auto, unfolding(crate::specs::Links::link_at))]
pub fn link_at(links: &[u32], client: usize, target: usize) -> Link
    requires { HasRow link_width links.now (link_row client target) }
    ensures { result ≡ link_at links.now client target }
{
    let at = WIDTH * (TARGETS * client + target);
    let contents = Contents {
        key: Key::at_word(links[at + KEY]),
        number: links[at + NUMBER],
        badge: links[at + BADGE],
    };
    let content = match links[at + KIND] {
        1 => Content::Request(contents),
        2 => Content::Reply(contents),
        3 => Content::Lost,
        _ => Content::Nothing,
    };
    Link { content }
}

// A word of a link's row as it stands, for those who ask whether it is in its range.
pub fn link_word(links: &[u32], client: usize, target: usize, field: usize) -> u32
    requires has_row { HasRow link_width links.now (link_row client target) }
    requires field_lt_link_width { field < link_width }
    ensures { result ≡ link_word links.now client target field }
{
    links[WIDTH * (TARGETS * client + target) + field]
}

// Four words from a place on: a kind and the contents.
fn put_words(links: &mut [u32], at: usize, kind: u32, contents: Contents)
    requires { at + 3 < length links.old }
    ensures { links.new ≡ sets links.old at (kind ∷ key_word contents.key ∷ contents.number ∷ contents.badge ∷ []) }
{
    links[at + KIND] = kind;
    links[at + KEY] = contents.key.word();
    links[at + NUMBER] = contents.number;
    links[at + BADGE] = contents.badge;
}

#[tactic(auto, unfolding(crate::specs::Links::put_link))]
pub fn put_link(links: &mut [u32], client: usize, target: usize, link: Link)
    requires { HasRow link_width links.old (link_row client target) }
    ensures { links.new ≡ put_link links.old client target link.content }
{
    let at = WIDTH * (TARGETS * client + target);
    match link.content {
        Content::Nothing => put_words(links, at, 0, NOTHING),
        Content::Request(contents) => put_words(links, at, 1, contents),
        Content::Reply(contents) => put_words(links, at, 2, contents),
        Content::Lost => put_words(links, at, 3, NOTHING),
    }
}

// Whether a link holds nothing. A lost one is not empty: its client waits for it.
pub fn is_empty(links: &[u32], client: usize, target: usize) -> bool
    requires { HasRow link_width links.now (link_row client target) }
    ensures { result ≡ is_empty (link_at links.now client target).content }
{
    matches!(link_at(links, client, target).content, Content::Nothing)
}
