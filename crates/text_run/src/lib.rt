// A whole text, played on lent tables into a lent space: the answers of its lines, then the register.
#![tactic(auto)]

ghost use Rattle.std.specs.Prelude.{◌≡◌};
ghost use Rattle.tables.specs.Lent.{tables_in, SameLent};
ghost use Rattle.texts.specs.Text.{text_left, play_text};
ghost use Rattle.texts.specs.TextPlayed.{text_by};

use causes::Refusal;
use tables::lent::Press;

// Plays a text on the lent tables: the answer of each line, then the register, at the front of the lent space. It answers how many
// bytes it printed. Refused by 2 or 12.
pub fn play_text(press: &mut Press, text: &[u8], out: &mut [u8]) -> Result<usize, Refusal>
    ensures same { SameLent press.old press.new }
    ensures played { text_left (text_by result) out.new (tables_in press.new) ≡ play_text text.now out.old (tables_in press.old) }
{
    if !texts::may_play(&press.lent()) {
        return Err(Refusal::NotSound);
    }
    let lines = texts::count_lines(text);
    if !texts::has_room(lines, out.len()) {
        return Err(Refusal::NoRoom);
    }
    let next = text_lines::play_lines(press, text, out);
    Ok(texts::print_end(&press.lent(), out, next))
}
