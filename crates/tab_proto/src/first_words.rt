//! The first words of commands, by how many arguments follow.

ghost use Rattle.std.specs.Prelude.{◌≡◌, IfSome};
ghost use Rattle.tab_proto.specs.FirstWords.{unary_in, unary_text, binary_in, binary_text};

/// A word with one argument. Transaction has one only inside a one-shot.
#[derive(Clone, Copy, Debug, PartialEq, Eq)]
pub enum Unary {
    Abort,
    AllKeys,
    Delete,
    DeleteObject,
    DeleteTable,
    MatchObject,
    ReadForWrite,
    ReadLockTable,
    Subscribe,
    Transaction,
    Unsubscribe,
    Write,
    WriteLockTable,
}

/// A word with two arguments.
#[derive(Clone, Copy, Debug, PartialEq, Eq)]
pub enum Binary {
    AddTableIndex,
    CreateTable,
    DelTableIndex,
    Read,
    Subscribe,
    TableInfo,
    Transaction,
}

/// The command of a request of two elements, by the first of them.
pub fn unary_of(word: &str) -> Option<Unary>
    ensures known { result ≡ unary_in word.now }
    ensures text { IfSome result (λ u. word.now ≡ unary_text u) }
{
    // The most frequent words come first: a word is compared with each before its own.
    match word {
        "write" => Some(Unary::Write),
        "wread" => Some(Unary::ReadForWrite),
        "delete" => Some(Unary::Delete),
        "match_object" => Some(Unary::MatchObject),
        "all_keys" => Some(Unary::AllKeys),
        "abort" => Some(Unary::Abort),
        "delete_object" => Some(Unary::DeleteObject),
        "delete_table" => Some(Unary::DeleteTable),
        "read_lock_table" => Some(Unary::ReadLockTable),
        "subscribe" => Some(Unary::Subscribe),
        "transaction" => Some(Unary::Transaction),
        "unsubscribe" => Some(Unary::Unsubscribe),
        "write_lock_table" => Some(Unary::WriteLockTable),
        _ => None,
    }
}

/// The command of a request of three elements, by the first of them.
pub fn binary_of(word: &str) -> Option<Binary>
    ensures known { result ≡ binary_in word.now }
    ensures text { IfSome result (λ b. word.now ≡ binary_text b) }
{
    match word {
        "read" => Some(Binary::Read),
        "transaction" => Some(Binary::Transaction),
        "add_table_index" => Some(Binary::AddTableIndex),
        "create_table" => Some(Binary::CreateTable),
        "del_table_index" => Some(Binary::DelTableIndex),
        "subscribe" => Some(Binary::Subscribe),
        "table_info" => Some(Binary::TableInfo),
        _ => None,
    }
}
