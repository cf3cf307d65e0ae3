//! The words of the language that are no names.
ghost use Rattle.std.specs.Prelude.{◌≡◌, ◌∷◌, ℕ, List, Some, is_some};
ghost use Rattle.sql_base.specs.Names.{is_keyword};
ghost use Rattle.statement_words.specs.declared.keywords.Keyword as keyword;
ghost use Rattle.std.specs.List.{find};
ghost use Rattle.std.specs.Str.{bytes_eq};
ghost use Rattle.statement_words.specs.Keywords.{spelling, keyword_of};

/// The words of the language that are no names, written in upper case.
#[derive(Clone, Copy, Debug, PartialEq, Eq)]
pub enum Keyword {
    Quantum,
    Buffer,
    Patience,
    Servers,
    Restart,
    Table,
    Int,
    Char,
    Primary,
    Key,
    Check,
    First,
    Load,
    Session,
    Select,
    From,
    Where,
    Update,
    Set,
    Delete,
    Insert,
    Into,
    Values,
    Lock,
    In,
    Share,
    Exclusive,
    Mode,
    For,
    Browse,
    Stable,
    Repeatable,
    Access,
    Commit,
    Rollback,
    Work,
    And,
    Or,
    Not,
}

/// Every keyword, once.
const KEYWORDS: [Keyword; 39] = [
    Keyword::Quantum,
    Keyword::Buffer,
    Keyword::Patience,
    Keyword::Servers,
    Keyword::Restart,
    Keyword::Table,
    Keyword::Int,
    Keyword::Char,
    Keyword::Primary,
    Keyword::Key,
    Keyword::Check,
    Keyword::First,
    Keyword::Load,
    Keyword::Session,
    Keyword::Select,
    Keyword::From,
    Keyword::Where,
    Keyword::Update,
    Keyword::Set,
    Keyword::Delete,
    Keyword::Insert,
    Keyword::Into,
    Keyword::Values,
    Keyword::Lock,
    Keyword::In,
    Keyword::Share,
    Keyword::Exclusive,
    Keyword::Mode,
    Keyword::For,
    Keyword::Browse,
    Keyword::Stable,
    Keyword::Repeatable,
    Keyword::Access,
    Keyword::Commit,
    Keyword::Rollback,
    Keyword::Work,
    Keyword::And,
    Keyword::Or,
    Keyword::Not,
];

/// The bytes that a keyword is written as.
pub fn spelling(keyword: Keyword) -> &'static [u8]
    ensures { result.now ≡ spelling keyword }
{
    match keyword {
        Keyword::Quantum => b"QUANTUM".as_slice(),
        Keyword::Buffer => b"BUFFER".as_slice(),
        Keyword::Patience => b"PATIENCE".as_slice(),
        Keyword::Servers => b"SERVERS".as_slice(),
        Keyword::Restart => b"RESTART".as_slice(),
        Keyword::Table => b"TABLE".as_slice(),
        Keyword::Int => b"INT".as_slice(),
        Keyword::Char => b"CHAR".as_slice(),
        Keyword::Primary => b"PRIMARY".as_slice(),
        Keyword::Key => b"KEY".as_slice(),
        Keyword::Check => b"CHECK".as_slice(),
        Keyword::First => b"FIRST".as_slice(),
        Keyword::Load => b"LOAD".as_slice(),
        Keyword::Session => b"SESSION".as_slice(),
        Keyword::Select => b"SELECT".as_slice(),
        Keyword::From => b"FROM".as_slice(),
        Keyword::Where => b"WHERE".as_slice(),
        Keyword::Update => b"UPDATE".as_slice(),
        Keyword::Set => b"SET".as_slice(),
        Keyword::Delete => b"DELETE".as_slice(),
        Keyword::Insert => b"INSERT".as_slice(),
        Keyword::Into => b"INTO".as_slice(),
        Keyword::Values => b"VALUES".as_slice(),
        Keyword::Lock => b"LOCK".as_slice(),
        Keyword::In => b"IN".as_slice(),
        Keyword::Share => b"SHARE".as_slice(),
        Keyword::Exclusive => b"EXCLUSIVE".as_slice(),
        Keyword::Mode => b"MODE".as_slice(),
        Keyword::For => b"FOR".as_slice(),
        Keyword::Browse => b"BROWSE".as_slice(),
        Keyword::Stable => b"STABLE".as_slice(),
        Keyword::Repeatable => b"REPEATABLE".as_slice(),
        Keyword::Access => b"ACCESS".as_slice(),
        Keyword::Commit => b"COMMIT".as_slice(),
        Keyword::Rollback => b"ROLLBACK".as_slice(),
        Keyword::Work => b"WORK".as_slice(),
        Keyword::And => b"AND".as_slice(),
        Keyword::Or => b"OR".as_slice(),
        Keyword::Not => b"NOT".as_slice(),
    }
}

/// The first of the keywords that is written as these bytes.
fn written_as(bytes: &[u8], keywords: &[Keyword]) -> Option<Keyword>
    ensures { result ≡ find (λ k. bytes_eq bytes.now (spelling k)) keywords.now }
{
    for keyword in keywords {
        if bytes == spelling(*keyword) {
            return Some(*keyword);
        }
    }
    None
}

/// The keywords that begin with this byte. Of a byte with which none begins, all of them.
#[tactic(auto, unfolding(crate::specs::Keywords::keyword_of))]
fn beginning_with(first: u8) -> &'static [Keyword]
    ensures { (rest : List ℕ) → find (λ k. bytes_eq (first ∷ rest) (spelling k)) result.now ≡ keyword_of (first ∷ rest) }
{
    match first {
        b'A' => &[Keyword::Access, Keyword::And],
        b'B' => &[Keyword::Buffer, Keyword::Browse],
        b'C' => &[Keyword::Char, Keyword::Check, Keyword::Commit],
        b'D' => &[Keyword::Delete],
        b'E' => &[Keyword::Exclusive],
        b'F' => &[Keyword::First, Keyword::From, Keyword::For],
        b'I' => &[Keyword::Int, Keyword::Insert, Keyword::Into, Keyword::In],
        b'K' => &[Keyword::Key],
        b'L' => &[Keyword::Load, Keyword::Lock],
        b'M' => &[Keyword::Mode],
        b'N' => &[Keyword::Not],
        b'O' => &[Keyword::Or],
        b'P' => &[Keyword::Patience, Keyword::Primary],
        b'Q' => &[Keyword::Quantum],
        b'R' => &[Keyword::Restart, Keyword::Repeatable, Keyword::Rollback],
        b'S' => &[
            Keyword::Servers,
            Keyword::Session,
            Keyword::Select,
            Keyword::Set,
            Keyword::Share,
            Keyword::Stable,
        ],
        b'T' => &[Keyword::Table],
        b'U' => &[Keyword::Update],
        b'V' => &[Keyword::Values],
        b'W' => &[Keyword::Where, Keyword::Work],
        _ => &KEYWORDS,
    }
}

/// The keyword that is written as these bytes, sought among those with their first byte.
#[tactic(auto, unfolding(crate::specs::Keywords::keyword_of))]
fn sought(bytes: &[u8]) -> Option<Keyword>
    ensures { result ≡ keyword_of bytes.now }
{
    match bytes.split_first() {
        Some((first, behind)) => {
            if !first.is_ascii_uppercase() {
                return None;
            }
            written_as(bytes, beginning_with(*first))
        }
        None => None,
    }
}

/// The keyword that is written as these bytes, if there is one.
pub fn keyword_of(bytes: &[u8]) -> Option<Keyword>
    ensures same { result ≡ keyword_of bytes.now }
    // Only the words of the language are written so, and each of them is.
    ensures known { is_some result ≡ is_keyword bytes.now }
    ensures found { (k : keyword.Keyword) → bytes.now ≡ spelling k → result ≡ Some k }
{
    sought(bytes)
}
