ghost use Rattle.std.specs.Prelude.{◌≡◌, IsTrue};
ghost use Rattle.marc_types.specs.Valid.{is_code, is_number};
ghost use Rattle.iso2709_record.specs.Written.{fits};

use marc_types::{Key, Record};

/// A holdings record, which fits its written form, and the key of the bibliographic record that it belongs to.
#[derive(Debug, Drop)]
pub struct HoldingContent {
    pub target: Key,
    pub rec: Record,
    ghost fits: { IsTrue (fits rec.fields) },
    ghost named: { IsTrue (is_number target.number) },
}

/// What a library holds of a bibliographic record: a holdings record, its own key, and the key of the record that it belongs
/// to, its target.
#[derive(Debug, Drop)]
pub struct Holding {
    pub(crate) key: Key,
    pub(crate) content: HoldingContent,
    ghost coded: { IsTrue (is_code key.code) },
    ghost own_code: { content.target.code ≡ key.code },
}

impl Holding {
    /// The key of the holding itself.
    pub fn key(&self) -> &Key
        ensures { result.now ≡ self.now.key }
    {
        &self.key
    }

    /// The key of the bibliographic record that it belongs to.
    pub fn target(&self) -> &Key
        ensures value { result.now ≡ self.now.content.target }
        ensures own_code { result.now.code ≡ self.now.key.code }
    {
        &self.content.target
    }

    /// Its record, which fits its written form.
    pub fn rec(&self) -> &Record
        ensures value { result.now ≡ self.now.content.rec }
        ensures fits { IsTrue (fits result.now.fields) }
    {
        &self.content.rec
    }
}
