//! The routes.

ghost use Rattle.std.specs.Prelude.{◌≡◌};
ghost use Rattle.ox_routes.specs.Table.{row_of};

use ox_http::Method;

/// A route of the server.
#[derive(Clone, Copy, Debug, PartialEq, Eq)]
pub enum Route {
    /// What all outputs hold, beside what was ever claimable.
    Audit,
    /// A block's hash, by its height.
    BlockHash,
    /// The command that connects a block.
    Connect,
    /// An inscription's content.
    Content,
    /// The command that takes the newest block off.
    Disconnect,
    /// An inscription, by its id.
    Inscription,
    /// A page of inscriptions.
    Inscriptions,
    /// An unspent output, by its outpoint.
    Output,
    /// A rune, by its id or name.
    Rune,
    /// A page of runes.
    Runes,
    /// A satoshi, by a notation.
    Sat,
    /// Where the index stands.
    Status,
}

impl Route {
    /// The method that the route has.
    pub fn method(self) -> Method
        ensures { result ≡ (row_of self).method }
    {
        match self {
            Route::Connect | Route::Disconnect => Method::Post,
            Route::Audit
            | Route::BlockHash
            | Route::Content
            | Route::Inscription
            | Route::Inscriptions
            | Route::Output
            | Route::Rune
            | Route::Runes
            | Route::Sat
            | Route::Status => Method::Get,
        }
    }

    /// The text that a path of the route begins with: all of it, or what stands before the part.
    pub fn text(self) -> &'static str
        ensures { result.now ≡ (row_of self).text }
    {
        match self {
            Route::Audit => "/audit",
            Route::BlockHash => "/blockhash/",
            Route::Connect => "/connect",
            Route::Content => "/content/",
            Route::Disconnect => "/disconnect",
            Route::Inscription => "/inscription/",
            Route::Inscriptions => "/inscriptions/",
            Route::Output => "/output/",
            Route::Rune => "/rune/",
            Route::Runes => "/runes/",
            Route::Sat => "/sat/",
            Route::Status => "/status",
        }
    }
}
