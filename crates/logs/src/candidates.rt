// The lines that may stand where one is due.
ghost use Rattle.std.specs.Prelude.{◌≡◌, [], get_or};
ghost use Rattle.listing.specs.Line.{text_of};
ghost use Rattle.logs.specs.Following.{first_fields, nexts, lines_of_nexts, first_that_is};

use crate::{Awaited, Follower, choices};
use listing::Text;
use session::Session;

impl Follower {
    // Looks for a line among those that may stand next, and has the session after it.
    pub(crate) fn search(self, trace: &[u8], line: &[u8]) -> Option<Session>
        ensures { result ≡ first_that_is line.now (nexts self trace.now) }
    {
        let session = self.session;
        match self.awaited(trace) {
            Some(Awaited::First) => choices::search_text(session, self.first_line(), line),
            Some(Awaited::Event(i)) => choices::search(
                session,
                i as u64 + 1,
                file::event_at(trace, i),
                line,
            ),
            None => None,
        }
    }

    // Line k of them, counted from 0; there is nothing in one past the last.
    pub(crate) fn candidate(self, trace: &[u8], k: usize) -> Text
        ensures { result ≡ get_or (lines_of_nexts (nexts self trace.now)) k [] }
    {
        let session = self.session;
        match self.awaited(trace) {
            Some(Awaited::First) => choices::only(self.first_line(), k),
            Some(Awaited::Event(i)) => choices::line_at(
                session,
                i as u64 + 1,
                file::event_at(trace, i),
                k,
            ),
            None => Text::empty(),
        }
    }

    // The first line: the header, or that of the refusal.
    fn first_line(self) -> Text
        ensures { result ≡ text_of (first_fields self) }
    {
        match self.refusal {
            None => listing::header(),
            Some(refusal) => listing::refused(refusal.number(), refusal.over()),
        }
    }
}
