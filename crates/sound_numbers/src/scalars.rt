// Numbers by themselves: whether there is such a press, and such a key.
ghost use Rattle.std.specs.Prelude.{◌≡◌};
ghost use Rattle.soundness.specs.Sound.{between, press_fits, key_in_range, badge_fits};
ghost use Rattle.soundness.specs.Parts.{key_owned, key_counted};

// Whether a number stands between two others, both included.
pub fn between(low: u32, number: u32, high: u32) -> bool
    ensures { result ≡ between low number high }
{
    if low <= number {
        return number <= high;
    }
    false
}

// Whether there is a press of a method with so many servers and clients.
pub fn press_fits(method: u32, servers: u32, clients: u32) -> bool
    ensures { result ≡ press_fits method servers clients }
{
    if !between(1, method, 3) {
        return false;
    }
    if !between(1, servers, 16) {
        return false;
    }
    if method == 1 {
        return between(2, clients, 16);
    }
    between(1, clients, 16)
}

// Whether a word is the opening's key, or one of a count from 1 and a client of the store.
pub fn key_in_range(clients: u32, word: u32) -> bool
    ensures { result ≡ key_in_range clients word }
{
    if word == 0 {
        return true;
    }
    if !between(256, word, 65535) {
        return false;
    }
    word % 256 < clients
}

// The parts of that, each one comparison: whether the word has 16 bits and its client is at most the last,
pub fn key_owned(last: u32, word: u32) -> bool
    ensures { result ≡ key_owned last word }
{
    word / 65536 * 65536 + word % 256 <= last
}

// and whether it has a count, unless it is the opening's.
pub fn key_counted(word: u32) -> bool
    ensures { result ≡ key_counted word }
{
    !between(1, word, 255)
}

// Whether a word is a badge: 16 bits.
pub fn badge_fits(word: u32) -> bool
    ensures { result ≡ badge_fits word }
{
    word < 65536
}
