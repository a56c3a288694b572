// A word as text.
ghost use Rattle.std.specs.Prelude.{◌+◌, ◌≤◌, length};
ghost use Rattle.text.specs.Put.{Put};

// Puts a word.
pub fn put_word(text: &mut [u8], at: usize, word: &[u8]) -> usize
    requires { at + length word.now ≤ length text.old }
    ensures { Put at text.old word.now result text.new }
{
    let end = at + word.len();
    text[at..end].copy_from_slice(word);
    end
}
