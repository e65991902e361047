//! What is reported of a plan that makes no store.

ghost use Rattle.std.specs.Prelude.{◌≡◌, if◌then◌else◌, is_ok};

use crate::endings::{end_refused, report_refused};
use crate::stores::Unread;
use flashplan_watched_runs::RefusedRows;
use std::fmt;
use std::fmt::{Display, Formatter};
use std::io::Write;
use terms_texts::{Key, Place, TableName, TermsRefusal};

/// A table of a plan, by its place in the text.
#[derive(Clone, Copy, Drop)]
struct Named(TableName);

impl Display for Named {
    fn fmt<W: fmt::Write>(&self, f: &mut Formatter<W>) -> fmt::Result {
        match self.0 {
            TableName::Top => f.write_str("on top"),
            TableName::Task { task } => {
                let nth = task.saturating_add(1);
                write!(f, "in [[task]] {nth}")
            }
        }
    }
}

/// Tells at which key of which table a fault lies. A writer that fails is passed over.
fn report_key<E: Write>(err: &mut E, table: TableName, key: Key) {
    let (name, table) = (key.name(), Named(table));
    let _ = writeln!(err, "the fault lies at {name} {table}");
}

/// Tells where the fault of a plan with terms lies, if it has a place. A writer that fails is passed over.
fn report_place<E: Write>(err: &mut E, refusal: TermsRefusal) {
    match refusal {
        TermsRefusal::Text {
            place: Place::At { table, key },
            ..
        } => report_key(err, table, key),
        TermsRefusal::Text {
            place: Place::In { table },
            ..
        } => {
            let table = Named(table);
            let _ = writeln!(err, "the fault lies {table}");
        }
        TermsRefusal::NoDie { task } => report_key(err, TableName::Task { task }, Key::Die),
        TermsRefusal::Die { die, .. } => {
            let _ = writeln!(err, "the fault lies in die {die}");
        }
        _ => {}
    }
}

/// Reports why a plan makes no store, of one with terms where the fault lies, and answers the status. A writer that fails
/// is passed over.
pub fn end_unread<E: Write>(err: &mut E, unread: Unread) -> u8
    ensures { result ≡ 1 }
{
    let status = end_refused(err, unread.refusal());
    if let Unread::WithTerms(refusal) = unread {
        report_place(err, refusal);
    }
    status
}

/// Reports the rows that were refused, or why nothing was printed, and answers the status. A writer that fails is passed
/// over.
pub fn end_run<E: Write>(err: &mut E, ran: Result<RefusedRows, Unread>) -> u8
    ensures { result ≡ (if is_ok ran then 0 else 1) }
{
    match ran {
        Ok(refused) => {
            report_refused(err, refused);
            0
        }
        Err(unread) => end_unread(err, unread),
    }
}
