//! The receipt for a record that is kept.
ghost use Rattle.std.specs.Prelude.{◌≡◌};

use score_base::Record;

/// The receipt of one record that stands in a journal. Only an append makes it, it can't be copied,
/// and it must be spent.
pub struct Kept {
    rec: Record,
}

impl Kept {
    /// The receipt of a record that was appended.
    pub(crate) fn made(rec: Record) -> Kept
        ensures { result.rec ≡ rec }
    {
        Kept { rec }
    }

    /// Its record.
    pub fn of(&self) -> &Record
        ensures { result.now ≡ self.now.rec }
    {
        &self.rec
    }

    /// Gives its record up.
    pub fn spend(self) -> Record
        ensures { result ≡ self.rec }
    {
        let Kept { rec } = self;
        rec
    }
}
