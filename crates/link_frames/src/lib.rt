// The frame of a link: the message that a link holds, written from lent tables into lent bytes.
// As in `store` there are two functions: the one judges any tables; the other, whose name ends in `_sound`, asks for sound tables and does not check them.
#![tactic(auto)]

ghost use Rattle.std.specs.Prelude.{◌≡◌, ◌-◌, ◌≤◌, length};
ghost use Rattle.tables.specs.Layout.{count_words};
ghost use Rattle.tables.specs.Lent.{tables_lent};
ghost use Rattle.soundness.specs.Facts.{Sound};
ghost use Rattle.frames.specs.Results.{length_by};
ghost use Rattle.wire.specs.OnLink.{alone, request_in, keys_reply, all_reply, log_reply, everything_reply, reply_in, on_link};
ghost use Rattle.wire.specs.Sending.{sent, is_absent, link_frame};
ghost use Rattle.wire.specs.Ready.{LogReady, AllReady, EverythingReady, RequestReady, ReplyReady, LinkReady};
ghost use Rattle.wire.specs.Cases.{wrote_from};
ghost use Rattle.wire.specs.Always.{Words};

use causes::Refusal;
use frames::Message;
use rules::states;
use tables::lent::Lent;
use tables::links::{Content, Contents};
use tables::{clients, counts, links, versions};

// A message with no entries.
fn write_alone(message: Message, bytes: &mut [u8]) -> Result<usize, Refusal>
    ensures { sent (length_by result) bytes.new ≡ wrote_from (alone message) bytes.old }
{
    let none = [0u32; 0];
    frames::write_frame(message, &none, &none, &none, bytes)
}

// The message of a request, by the state that sent it.
fn request_message(state: u32, contents: Contents, client: u8, target: u8) -> Message
    requires { RequestReady state contents }
    ensures { result ≡ request_in state contents client target }
{
    let key = contents.key;
    let number = contents.number;
    if state == states::WRITING {
        return Message::Set {
            client,
            server: target,
            key,
            badge: contents.badge as u16,
            setpoint: number,
        };
    }
    if state == states::ENTERING {
        return Message::Enter {
            client,
            key,
            mask: number,
        };
    }
    if state == states::ASKING_KEYS {
        return Message::WhichKeys { client };
    }
    if state == states::ASKING_SETPOINTS {
        return Message::Get {
            client,
            server: target,
            key,
        };
    }
    if target == 16 {
        return Message::GetLog { client };
    }
    Message::GetAll {
        client,
        server: target,
    }
}

// The last tag of a log with so many entries.
fn last_tag(entries: u32) -> u8
    requires { (1 ≤ entries) × (entries ≤ 256) }
    ensures { result ≡ entries - 1 }
{
    (entries - 1) as u8
}

// The head's reply to a client that asks for keys: the last tag of the log as it was, and at it the keys of all servers, each with the tag
// that it comes from.
fn write_keys(
    log: &[u32],
    servers: u32,
    number: u32,
    client: u8,
    bytes: &mut [u8],
) -> Result<usize, Refusal>
    requires { LogReady log.now number × (servers ≤ 16) }
    ensures { sent (length_by result) bytes.new ≡ wrote_from (keys_reply number client servers log.now) bytes.old }
{
    let none = [0u32; 0];
    let mut keys = [0u32; 16];
    let mut tags = [0u32; 16];
    let tag = last_tag(number);
    let count = servers as usize;
    coordinator::latest_entries(log, count, tag as usize, &mut keys, &mut tags);
    let message = Message::Keys {
        client,
        tag,
        entries: servers,
    };
    frames::write_frame(message, &keys[..count], &none, &tags[..count], bytes)
}

// The head's reply under C: the first entries of the log.
fn write_log(log: &[u32], number: u32, client: u8, bytes: &mut [u8]) -> Result<usize, Refusal>
    requires { LogReady log.now number }
    ensures { sent (length_by result) bytes.new ≡ wrote_from (log_reply number client log.now) bytes.old }
{
    let none = [0u32; 0];
    let mut words = [0u32; 256];
    let mut masks = [0u32; 256];
    let count = number as usize;
    link_entries::log_entries(log, count, &mut words, &mut masks);
    let message = Message::Log {
        client,
        entries: number,
    };
    frames::write_frame(message, &words[..count], &none, &masks[..count], bytes)
}

// A server's reply under C: its first versions.
fn write_all(
    keys: &[u32],
    values: &[u32],
    number: u32,
    client: u8,
    target: u8,
    bytes: &mut [u8],
) -> Result<usize, Refusal>
    requires { AllReady keys.now values.now target number }
    ensures { sent (length_by result) bytes.new ≡ wrote_from (all_reply number client target keys.now values.now) bytes.old }
{
    let mut badges = [0u32; 256];
    let mut setpoints = [0u32; 256];
    let server = target as usize;
    let count = number as usize;
    link_entries::version_entries(values, server, count, &mut badges, &mut setpoints);
    let first = versions::first_place(server);
    let end = first + count;
    let message = Message::All {
        client,
        server: target,
        entries: number,
    };
    frames::write_frame(
        message,
        &keys[first..end],
        &badges[..count],
        &setpoints[..count],
        bytes,
    )
}

// A reply under C: the head's or a server's.
fn write_everything(
    t: &Lent,
    number: u32,
    client: u8,
    target: u8,
    bytes: &mut [u8],
) -> Result<usize, Refusal>
    requires { EverythingReady t.now.keys.now t.now.values.now t.now.log.now number target }
    ensures { sent (length_by result) bytes.new
        ≡ wrote_from (everything_reply number client target t.now.keys.now t.now.values.now t.now.log.now) bytes.old }
{
    if target == 16 {
        return write_log(t.log, number, client, bytes);
    }
    write_all(t.keys, t.values, number, client, target, bytes)
}

// A reply, by the state that gets it back.
fn write_reply(
    t: &Lent,
    state: u32,
    contents: Contents,
    client: u8,
    target: u8,
    bytes: &mut [u8],
) -> Result<usize, Refusal>
    requires { let u = tables_lent t.now in ReplyReady u.counts u.keys u.values u.log state contents target }
    ensures { sent (length_by result) bytes.new
        ≡ wrote_from (reply_in state contents client target (tables_lent t.now)) bytes.old }
{
    let number = contents.number;
    if state == states::WRITING {
        let done = Message::SetDone {
            client,
            server: target,
        };
        return write_alone(done, bytes);
    }
    if state == states::ENTERING {
        let entered = Message::Entered {
            client,
            tag: number as u8,
        };
        return write_alone(entered, bytes);
    }
    if state == states::ASKING_KEYS {
        let servers = counts::count_at(t.counts, counts::SERVERS);
        return write_keys(t.log, servers, number, client, bytes);
    }
    if state == states::ASKING_SETPOINTS {
        let got = Message::Got {
            client,
            server: target,
            badge: contents.badge as u16,
            setpoint: number,
        };
        return write_alone(got, bytes);
    }
    write_everything(t, number, client, target, bytes)
}

// What the link holds; 9 where it holds nothing, or is lost.
fn write_link(t: &Lent, client: u32, target: u32, bytes: &mut [u8]) -> Result<usize, Refusal>
    requires { LinkReady client target (tables_lent t.now) }
    ensures { sent (length_by result) bytes.new ≡ wrote_from (on_link client target (tables_lent t.now)) bytes.old }
{
    let state = clients::client_word(t.clients, client as usize, clients::STATE);
    let link = links::link_at(t.links, client as usize, target as usize);
    let content = link.content;
    let from = client as u8;
    let to = target as u8;
    match content {
        Content::Nothing => Err(Refusal::NoMessage),
        Content::Lost => Err(Refusal::NoMessage),
        Content::Request(contents) => write_alone(
            request_message(state, contents, from, to),
            bytes,
        ),
        Content::Reply(contents) => write_reply(t, state, contents, from, to, bytes),
    }
}

// Whether there is no such client or target.
fn is_absent(t: &Lent, client: u32, target: u32) -> bool
    requires { count_words ≤ length t.now.counts.now }
    ensures { result ≡ is_absent client target (tables_lent t.now) }
{
    if counts::count_at(t.counts, counts::CLIENTS) <= client {
        return true;
    }
    !refusal_tests::is_target(counts::count_at(t.counts, counts::SERVERS), target)
}

// The words of two tables have 32 bits: what they say can be written.
fn have_words(_links: &[u32], _values: &[u32])
    ensures { Words _links.now _values.now }
{}

// Writes the frame of the link of a client and a target into the lent bytes: its length, or 3, 9 or 12, and then the bytes are as before. On tables known to be sound.
pub fn write_link_frame_sound(
    t: &Lent,
    client: u32,
    target: u32,
    bytes: &mut [u8],
) -> Result<usize, Refusal>
    requires { Sound (tables_lent t.now) }
    ensures { sent (length_by result) bytes.new ≡ link_frame client target (tables_lent t.now) bytes.old }
{
    if is_absent(t, client, target) {
        return Err(Refusal::Absent);
    }
    have_words(t.links, t.values);
    write_link(t, client, target, bytes)
}

// Writes the frame of the link of a client and a target into the lent bytes: its length, or 2, 3, 9 or 12, and then the bytes are as before.
pub fn write_link_frame(
    t: &Lent,
    client: u32,
    target: u32,
    bytes: &mut [u8],
) -> Result<usize, Refusal>
    ensures { sent (length_by result) bytes.new ≡ link_frame client target (tables_lent t.now) bytes.old }
{
    if !sound_tables::sound(t) {
        return Err(Refusal::NotSound);
    }
    write_link_frame_sound(t, client, target, bytes)
}
