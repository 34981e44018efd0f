// Lent words and bytes, cleared. It promises that a slice is zero afterwards, at every place and nowhere else. Reading and running stand
// above it.
#![tactic(auto)]

ghost use Rattle.std.specs.Prelude.{◌≡◌, length};
ghost use Rattle.ground.specs.Regions.{zeros};

// By a loop, and not by `fill`, so that a version that clears too little is refused for what it leaves, and not for how it is written.
pub fn clear_words(words: &mut [u32])
    ensures { words.new ≡ zeros (length words.old) }
{
    for i in 0..words.len() {
        words[i] = 0;
    }
}

// The same of bytes.
pub fn clear_bytes(bytes: &mut [u8])
    ensures { bytes.new ≡ zeros (length bytes.old) }
{
    for i in 0..bytes.len() {
        bytes[i] = 0;
    }
}
