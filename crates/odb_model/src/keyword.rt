//! The reserved words.
ghost use Rattle.std.specs.Prelude.{◌≡◌, ◌==◌, slice_index, find, filter};
ghost use Rattle.std.specs.Char.{to_ascii_lowercase};
ghost use Rattle.std.specs.Str.{str_eq_ignore_ascii_case};
ghost use Rattle.odb_model.specs.Lexeme.{word_text, keywords, keyword_of};

/// A reserved word, which is no name. Its text is its own name in capitals.
#[derive(Clone, Copy, Debug, PartialEq, Eq)]
pub enum Keyword {
    Start,
    Commit,
    Rollback,
    Select,
    From,
    Where,
    Insert,
    Into,
    Values,
    Update,
    Set,
    Delete,
    Create,
    Databank,
    Table,
    Primary,
    Key,
    In,
    Drop,
    Shadow,
    For,
    Online,
    Offline,
    Alter,
    To,
    Master,
    Backup,
    Of,
    Ready,
    Restore,
    Count,
    Sum,
    Null,
    Integer,
    Varchar,
    Not,
    Or,
    And,
    Is,
}

impl Keyword {
    /// Its text, in capitals.
    #[tactic(auto, unfolding(crate::specs::Lexeme::word_text))]
    pub fn text(self) -> &'static [u8]
        ensures { result.now ≡ word_text self }
    {
        match self {
            Keyword::Start => b"START",
            Keyword::Commit => b"COMMIT",
            Keyword::Rollback => b"ROLLBACK",
            Keyword::Select => b"SELECT",
            Keyword::From => b"FROM",
            Keyword::Where => b"WHERE",
            Keyword::Insert => b"INSERT",
            Keyword::Into => b"INTO",
            Keyword::Values => b"VALUES",
            Keyword::Update => b"UPDATE",
            Keyword::Set => b"SET",
            Keyword::Delete => b"DELETE",
            Keyword::Create => b"CREATE",
            Keyword::Databank => b"DATABANK",
            Keyword::Table => b"TABLE",
            Keyword::Primary => b"PRIMARY",
            Keyword::Key => b"KEY",
            Keyword::In => b"IN",
            Keyword::Drop => b"DROP",
            Keyword::Shadow => b"SHADOW",
            Keyword::For => b"FOR",
            Keyword::Online => b"ONLINE",
            Keyword::Offline => b"OFFLINE",
            Keyword::Alter => b"ALTER",
            Keyword::To => b"TO",
            Keyword::Master => b"MASTER",
            Keyword::Backup => b"BACKUP",
            Keyword::Of => b"OF",
            Keyword::Ready => b"READY",
            Keyword::Restore => b"RESTORE",
            Keyword::Count => b"COUNT",
            Keyword::Sum => b"SUM",
            Keyword::Null => b"NULL",
            Keyword::Integer => b"INTEGER",
            Keyword::Varchar => b"VARCHAR",
            Keyword::Not => b"NOT",
            Keyword::Or => b"OR",
            Keyword::And => b"AND",
            Keyword::Is => b"IS",
        }
    }

    /// Whether a word is this one, in large or small letters.
    fn is(self, word: &[u8]) -> bool
        ensures { result ≡ str_eq_ignore_ascii_case (word_text self) word.now }
    {
        self.text().eq_ignore_ascii_case(word)
    }

    /// The reserved word that a word is, in large or small letters. It takes no memory, and time in
    /// the word's bytes.
    pub fn of(word: &[u8]) -> Option<Keyword>
        ensures { result ≡ keyword_of word.now }
    {
        match word {
            [] => None,
            [first, ..] => found(beginning_with(first.to_ascii_lowercase()), word),
        }
    }
}

/// The reserved words that begin with a small letter, by their texts in small letters.
#[tactic(auto, unfolding(crate::specs::Lexeme::word_text))]
fn beginning_with(letter: u8) -> &'static [Keyword]
    ensures { result.now ≡ filter
        (λ keyword. to_ascii_lowercase (slice_index (word_text keyword) 0) == letter) keywords }
{
    match letter {
        b'a' => &[Keyword::Alter, Keyword::And],
        b'b' => &[Keyword::Backup],
        b'c' => &[Keyword::Commit, Keyword::Create, Keyword::Count],
        b'd' => &[Keyword::Delete, Keyword::Databank, Keyword::Drop],
        b'f' => &[Keyword::From, Keyword::For],
        b'i' => &[
            Keyword::Insert,
            Keyword::Into,
            Keyword::In,
            Keyword::Integer,
            Keyword::Is,
        ],
        b'k' => &[Keyword::Key],
        b'm' => &[Keyword::Master],
        b'n' => &[Keyword::Null, Keyword::Not],
        b'o' => &[Keyword::Online, Keyword::Offline, Keyword::Of, Keyword::Or],
        b'p' => &[Keyword::Primary],
        b'r' => &[Keyword::Rollback, Keyword::Ready, Keyword::Restore],
        b's' => &[
            Keyword::Start,
            Keyword::Select,
            Keyword::Set,
            Keyword::Shadow,
            Keyword::Sum,
        ],
        b't' => &[Keyword::Table, Keyword::To],
        b'u' => &[Keyword::Update],
        b'v' => &[Keyword::Values, Keyword::Varchar],
        b'w' => &[Keyword::Where],
        _ => &[],
    }
}

/// The first of some reserved words that the word is.
fn found(keywords: &[Keyword], word: &[u8]) -> Option<Keyword>
    ensures { result
        ≡ find (λ keyword. str_eq_ignore_ascii_case (word_text keyword) word.now) keywords.now }
{
    match keywords {
        [] => None,
        [first, rest @ ..] => {
            if first.is(word) {
                Some(*first)
            } else {
                found(rest, word)
            }
        }
    }
}
