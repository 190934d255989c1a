// The word that a line starts with.
ghost use Rattle.std.specs.Prelude.{◌≡◌};
ghost use Rattle.text.specs.Bytes.{same};
ghost use Rattle.text.specs.Words.{word_of};

// The ten words.
#[derive(Clone, Copy)]
pub enum Word {
    Column,
    Begin,
    Query,
    Read,
    Update,
    Delete,
    Insert,
    Commit,
    Tidy,
    Abort,
}

// Whether a field is a word.
fn is(field: &[u8], word: &[u8]) -> bool
    ensures { result ≡ same field.now word.now }
{
    check::same(field, word)
}

// The word that a field is, if it is one. A `match` on the bytes would prove nothing: its arms give facts on the length alone.
pub fn word_of(field: &[u8]) -> Option<Word>
    ensures { result ≡ word_of field.now }
{
    if is(field, b"column") {
        return Some(Word::Column);
    }
    if is(field, b"begin") {
        return Some(Word::Begin);
    }
    if is(field, b"query") {
        return Some(Word::Query);
    }
    if is(field, b"read") {
        return Some(Word::Read);
    }
    if is(field, b"update") {
        return Some(Word::Update);
    }
    if is(field, b"delete") {
        return Some(Word::Delete);
    }
    if is(field, b"insert") {
        return Some(Word::Insert);
    }
    if is(field, b"commit") {
        return Some(Word::Commit);
    }
    if is(field, b"tidy") {
        return Some(Word::Tidy);
    }
    if is(field, b"abort") {
        return Some(Word::Abort);
    }
    None
}
