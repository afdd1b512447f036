// The text of a page and of a refusal, written into a buffer.
#![tactic(auto)]

ghost use Rattle.std.specs.Prelude.{◌≡◌, [], ◌∷◌, ◌++◌, ◌+◌, ◌*◌, ◌%◌, ◌≤◌, ◌<◌, length, take};
ghost use Rattle.text.specs.Text.{digit_of, digits, number, after_level, next_column, levels_text, after_count, counts_text, refusal_text, head_text, page_text};
ghost use Rattle.text.specs.inner.Put.{Put};

use shapes::PLAYERS;

// The last decimal digit of a number.
fn digit(n: u64) -> u8
    ensures { result ≡ digit_of n }
{
    b'0' + (n % 10) as u8
}

// A text that is written: the first `at` bytes of a lent buffer.
#[derive(Drop)]
struct Text<'a> {
    out: &'a mut [u8],
    at: usize,
}

impl<'a> Text<'a> {
    // Puts bytes behind it.
    fn put_bytes(&mut self, bytes: &[u8])
        requires { self.old.at + length bytes.now ≤ length self.old.out.now }
        ensures { Put self.old self.new bytes.now (length bytes.now) }
    {
        let end = self.at + bytes.len();
        self.out[self.at..end].copy_from_slice(bytes);
        self.at = end;
    }

    fn put_byte(&mut self, byte: u8)
        requires { self.old.at < length self.old.out.now }
        ensures { Put self.old self.new (byte ∷ []) 1 }
    {
        self.out[self.at] = byte;
        self.at += 1;
    }

    // Puts a number in at most so many digits.
    fn put_digits(&mut self, n: u64, places: usize)
        requires { self.old.at + places ≤ length self.old.out.now }
        ensures { Put self.old self.new (digits places n) places }
    {
        if places == 0 {
            return;
        }
        if 10 <= n {
            self.put_digits(n / 10, places - 1);
        }
        self.put_byte(digit(n));
    }

    // Puts a number and the byte that follows it.
    fn put_number(&mut self, n: u64, places: usize, after: u8)
        requires { self.old.at + places < length self.old.out.now }
        ensures { Put self.old self.new (number places n after) (places + 1) }
    {
        self.put_digits(n, places);
        self.put_byte(after);
    }

    // Puts the levels of a page of width w, row after row.
    fn put_levels(&mut self, w: usize, levels: &[u8])
        requires { (self.old.at + 4 * length levels.now ≤ length self.old.out.now) × (length levels.now ≤ 65536) }
        ensures { Put self.old self.new (levels_text w 0 levels.now) (4 * length levels.now) }
    {
        let mut x = 0;
        for &level in levels {
            self.put_number(level as u64, 3, after_level(w, x));
            x = next_column(w, x);
        }
    }

    // Puts the counts of the players.
    fn put_counts(&mut self, touched: [u64; PLAYERS])
        requires { self.old.at + 168 ≤ length self.old.out.now }
        ensures { Put self.old self.new (counts_text 0 touched) 168 }
    {
        for (player, &count) in touched.iter().enumerate() {
            self.put_number(count, 20, after_count(player));
        }
    }

    // Puts what stands before the levels of a page.
    #[tactic(auto, unfolding(crate::specs::Text::head_text))]
    fn put_head(&mut self, w: u16, h: u16, touched: [u64; PLAYERS])
        requires { self.old.at + 240 ≤ length self.old.out.now }
        ensures { Put self.old self.new (head_text w h touched) 240 }
    {
        self.put_bytes(b"P2\n# touched ");
        self.put_counts(touched);
        self.put_number(w as u64, 20, b' ');
        self.put_number(h as u64, 20, b'\n');
        self.put_bytes(b"255\n");
    }

    // Puts a page of width w and height h.
    fn put_page(&mut self, page: &[u8], w: u16, h: u16, touched: [u64; PLAYERS])
        requires { (self.old.at + 4 * length page.now + 240 ≤ length self.old.out.now) × (length page.now ≤ 65536) }
        ensures { Put self.old self.new (page_text w h touched page.now) (4 * length page.now + 240) }
    {
        let n = (w as usize * h as usize).min(page.len());
        self.put_head(w, h, touched);
        self.put_levels(w as usize, &page[..n]);
    }

    #[tactic(auto, unfolding(crate::specs::Text::refusal_text))]
    fn put_refusal(&mut self, refusal: u8, place: usize)
        requires { self.old.at + 240 ≤ length self.old.out.now }
        ensures { Put self.old self.new (refusal_text refusal place) 240 }
    {
        self.put_bytes(b"refused ");
        self.put_number(refusal as u64, 20, b' ');
        self.put_bytes(b"at ");
        self.put_number(place as u64, 20, b'\n');
    }
}

// What follows the level in column x of a row of w levels.
#[tactic(auto, using(std::proofs::lemmas::Bool::Decides::nat_tests), unfolding(crate::specs::Text::after_level))]
fn after_level(w: usize, x: usize) -> u8
    requires { x < 65536 }
    ensures { result ≡ after_level w x }
{
    if x + 1 == w || (x + 1) % 16 == 0 {
        b'\n'
    } else {
        b' '
    }
}

// The column after column x.
#[tactic(auto, using(std::proofs::lemmas::Bool::Decides::nat_tests), unfolding(crate::specs::Text::next_column))]
fn next_column(w: usize, x: usize) -> usize
    requires { x < 65536 }
    ensures { (result ≡ next_column w x) × (result ≤ x + 1) }
{
    if x + 1 == w { 0 } else { x + 1 }
}

// What follows the count of a player.
#[tactic(auto, using(std::proofs::lemmas::Bool::Decides::nat_tests), unfolding(crate::specs::Text::after_count))]
fn after_count(player: usize) -> u8
    requires { player < 8 }
    ensures { result ≡ after_count player }
{
    if player + 1 == PLAYERS { b'\n' } else { b' ' }
}

// Puts the text of a refusal; hands back its length. Any number has a text: a `Refusal` would ask more of a caller.
pub fn put_refusal(out: &mut [u8], refusal: u8, place: usize) -> usize
    requires { 240 ≤ length out.old }
    ensures { (take result out.new ≡ refusal_text refusal place) × (result ≤ 240) }
{
    let mut text = Text { out, at: 0 };
    text.put_refusal(refusal, place);
    text.at
}

// Puts the text of a page; hands back its length.
pub fn put_page(out: &mut [u8], page: &[u8], w: u16, h: u16, touched: [u64; PLAYERS]) -> usize
    requires { (4 * length page.now + 240 ≤ length out.old) × (length page.now ≤ 65536) }
    ensures { (take result out.new ≡ page_text w h touched page.now) × (result ≤ 4 * length page.now + 240) }
{
    let mut text = Text { out, at: 0 };
    text.put_page(page, w, h, touched);
    text.at
}
