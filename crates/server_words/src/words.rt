ghost use Rattle.std.specs.Prelude.{◌≡◌, true, IfSome};
ghost use Rattle.server_words.specs.ReportForm.{form_word};
ghost use Rattle.server_words.specs.Words.{AreNumbersInRange};

use std::net::IpAddr;

/// How many displays there are at most.
pub const DISPLAYS_AT_MOST: u8 = 32;

/// How many workers there are at most.
pub(crate) const MOST_WORKERS: u8 = 16;

/// After how many connections a display ends at most.
pub(crate) const MOST_CONNECTIONS: u32 = 1_000_000;

/// How many visits a solver's call may make at most.
pub(crate) const MOST_BUDGET: i64 = 1_000_000_000_000_000_000;

/// How many clients are served at once at most.
pub const CLIENTS_AT_MOST: u32 = 10_000;

/// For how many seconds a client that says nothing is waited for at most.
pub(crate) const MOST_IDLE: u32 = 86_400;

/// What the program's words ask for.
#[derive(Clone, Copy, PartialEq)]
pub enum Words<'a> {
    /// To answer a script on standard input.
    Script,
    /// To serve clients over WebSockets.
    Serve(Serving<'a>),
    /// To tell the audit of the journal at this path.
    Audit(&'a str),
    /// To copy a journal.
    Copy(JournalCopy<'a>),
    /// To look at a session before it is opened.
    Check(Checking<'a>),
    /// To prepare a session.
    Prepare(Preparing<'a>),
    /// To write what the session of a journal comes to.
    Report(Reporting<'a>),
}

/// In which form a report is written.
#[derive(Clone, Copy, PartialEq)]
pub enum ReportForm {
    Csv,
    Html,
    Pbn,
    Usebio,
}

impl ReportForm {
    /// The form of a word.
    pub(crate) fn of(word: &str) -> Option<ReportForm>
        ensures found { IfSome result (λ form. form_word form ≡ word.now) }
    {
        match word {
            "csv" => Some(ReportForm::Csv),
            "html" => Some(ReportForm::Html),
            "pbn" => Some(ReportForm::Pbn),
            "usebio" => Some(ReportForm::Usebio),
            _ => None,
        }
    }
}

/// A report that is asked for.
#[derive(Clone, Copy, PartialEq)]
pub struct Reporting<'a> {
    /// The path of the journal.
    pub journal: &'a str,
    pub form: ReportForm,
}

/// The paths of the files of a session that is looked at.
#[derive(Clone, Copy, PartialEq)]
pub struct Checking<'a> {
    /// That of the session object, or of a script, which begins with one.
    pub session: &'a str,
    /// That of the deals, where they don't stand in the object.
    pub deals: Option<&'a str>,
}

/// The paths of the files of a session.
#[derive(Clone, Copy, PartialEq)]
pub struct SessionFiles<'a> {
    /// That of the session object.
    pub session: &'a str,
    /// That of the deals.
    pub deals: &'a str,
}

/// Which session is served.
#[derive(Clone, Copy, PartialEq)]
pub enum SessionSource<'a> {
    /// That of files, which nobody keeps.
    Files(SessionFiles<'a>),
    /// That of the journal at this path, which keeps it. If there are files too, it is theirs.
    Journal(&'a str, Option<SessionFiles<'a>>),
}

/// Paths of a journal.
#[derive(Clone, Copy, PartialEq)]
pub struct JournalCopy<'a> {
    /// That of the journal.
    pub journal: &'a str,
    /// That of the copy.
    pub to: &'a str,
}

/// How a session is prepared.
#[derive(Clone, Copy, PartialEq)]
pub struct Preparing<'a> {
    /// The path of the list of people.
    pub people: &'a str,
    /// That of the deals.
    pub deals: &'a str,
    /// The folder that is made.
    pub to: &'a str,
    pub tables: u8,
    pub rounds: u8,
    /// How many boards a set has.
    pub per_set: u8,
    /// The movement's name in the field, if one is given.
    pub movement: Option<&'a str>,
    /// In how many of the last rounds the pairs sit the other way round.
    pub switched: u8,
    /// The pair that is absent, if one is given.
    pub absent: Option<&'a str>,
    /// How many visits a solver's call may make, up to 10 ^ 18.
    pub budget: u64,
    pub title: Option<&'a str>,
    pub date: Option<&'a str>,
    /// Where the page is that people sign in on.
    pub address: &'a str,
}

/// How clients are served.
#[derive(Clone, Copy, PartialEq)]
pub struct Serving<'a> {
    /// Which session is served.
    pub source: SessionSource<'a>,
    /// The address at which clients come, 127.0.0.1 where none is named.
    pub address: IpAddr,
    /// The port there, from 1.
    pub port: u16,
    /// How many displays there are, 1 to 32.
    pub displays: u8,
    /// How many workers solve deals, 0 to 16.
    pub workers: u8,
    /// After how many connections a display ends, up to 1,000,000. With 0 it never does.
    pub connections: u32,
    /// How many clients are served at once, 1 to 10,000.
    pub clients: u32,
    /// Within how many seconds a client has to send a message or a ping, 1 to 86,400.
    pub idle: u32,
    /// The origin that a page has to come from, if only one may connect.
    pub origin: Option<&'a str>,
    /// The folder of the page that is handed out at the same port, if there is one.
    pub page: Option<&'a str>,
    /// The file to which it is added what happens, or `-` for standard error, if it is to be told.
    pub log: Option<&'a str>,
}

impl Serving<'_> {
    /// Whether each number is in its range.
    pub(crate) fn is_in_range(&self) -> bool
        ensures { result ≡ true → AreNumbersInRange self.now }
    {
        1 <= self.port
            && (1..=DISPLAYS_AT_MOST).contains(&self.displays)
            && self.workers <= MOST_WORKERS
            && self.connections <= MOST_CONNECTIONS
            && (1..=CLIENTS_AT_MOST).contains(&self.clients)
            && (1..=MOST_IDLE).contains(&self.idle)
    }
}
