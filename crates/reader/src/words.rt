// What a word of the command line is.
ghost use Rattle.std.specs.Prelude.{◌≡◌, true, false};
ghost use Rattle.reader.specs.Words.{Says};
ghost use Rattle.reader.specs.declared.words.Word.TheVariants.{Name};

#[derive(Clone, Copy)]
pub enum Word {
    // `--help`
    Help,
    // `--`: only names follow
    Past,
    // `-`: standard input
    Input,
    // any other that begins with `-`
    Option,
    Name,
}

// Where `--` has not come before it.
pub fn word_of(word: &[u8]) -> Word
    ensures { Says result word.now }
{
    match word {
        b"--help" => Word::Help,
        b"--" => Word::Past,
        b"-" => Word::Input,
        [b'-', ..] => Word::Option,
        _ => Word::Name,
    }
}

// Behind `--` every word is a name.
pub fn word_behind(is_past: bool, word: &[u8]) -> Word
    ensures past { is_past ≡ true → result ≡ Name }
    ensures before { is_past ≡ false → Says result word.now }
{
    if is_past { Word::Name } else { word_of(word) }
}
