ghost use Rattle.std.specs.Prelude.{◌≡◌, IfOk, IsTrue};
ghost use Rattle.iso2709_record.specs.Written.{fits};
ghost use Rattle.workload.specs.Records.{contents_of};
ghost use Rattle.workload.specs.Workload.{contents_of_record};

use crate::drafts::Draft;
use crate::fields::{
    authority_fields, bibliographic_fields, deletion_fields, linked_authority_fields,
};
use marc_types::{Leader, NoMemory, Record, Sequence};
use std::alloc::Global;

const AUTHORITY: Leader = Leader {
    status: b'n',
    rtype: b'z',
    level: b' ',
    control: b' ',
    encoding: b'n',
    form: b' ',
    linked: b' ',
};

const DELETED_AUTHORITY: Leader = Leader {
    status: b'd',
    rtype: b'z',
    level: b' ',
    control: b' ',
    encoding: b'n',
    form: b' ',
    linked: b' ',
};

const MONOGRAPH: Leader = Leader {
    status: b'n',
    rtype: b'a',
    level: b'm',
    control: b' ',
    encoding: b' ',
    form: b'a',
    linked: b' ',
};

#[tactic(auto, using(crate::proofs::Sound::authority_record, crate::proofs::Sound::authority_fits))]
fn authority(alloc: Global, name: u64, variant: u64) -> Result<Record, NoMemory>
    ensures value { IfOk result (λ rec. contents_of_record rec ≡ contents_of (Draft.Authority name variant)) }
    ensures fits { IfOk result (λ rec. IsTrue (fits rec.fields)) }
{
    let fields = authority_fields(alloc, name, variant)?;
    Ok(Record {
        leader: AUTHORITY,
        fields: Sequence::from_vec(fields),
    })
}

#[tactic(auto, using(crate::proofs::Sound::linked_record, crate::proofs::Sound::linked_fits))]
fn linked_authority(alloc: Global, name: u64, variant: u64, other: u64) -> Result<Record, NoMemory>
    ensures value { IfOk result (λ rec. contents_of_record rec ≡ contents_of (Draft.LinkedAuthority name variant other)) }
    ensures fits { IfOk result (λ rec. IsTrue (fits rec.fields)) }
{
    let fields = linked_authority_fields(alloc, name, variant, other)?;
    Ok(Record {
        leader: AUTHORITY,
        fields: Sequence::from_vec(fields),
    })
}

#[tactic(auto, using(crate::proofs::Sound::deletion_record, crate::proofs::Sound::deletion_fits))]
fn deletion(alloc: Global, name: u64) -> Result<Record, NoMemory>
    ensures value { IfOk result (λ rec. contents_of_record rec ≡ contents_of (Draft.Deletion name)) }
    ensures fits { IfOk result (λ rec. IsTrue (fits rec.fields)) }
{
    let fields = deletion_fields(alloc, name)?;
    Ok(Record {
        leader: DELETED_AUTHORITY,
        fields: Sequence::from_vec(fields),
    })
}

#[tactic(auto, using(crate::proofs::Sound::bibliographic_record, crate::proofs::Sound::bibliographic_fits))]
fn bibliographic(alloc: Global, number: u64, author: u64) -> Result<Record, NoMemory>
    ensures value { IfOk result (λ rec. contents_of_record rec ≡ contents_of (Draft.Bibliographic number author)) }
    ensures fits { IfOk result (λ rec. IsTrue (fits rec.fields)) }
{
    let fields = bibliographic_fields(alloc, number, author)?;
    Ok(Record {
        leader: MONOGRAPH,
        fields: Sequence::from_vec(fields),
    })
}

/// The record of a draft.
pub fn record_of(alloc: Global, draft: Draft) -> Result<Record, NoMemory>
    ensures value { IfOk result (λ rec. contents_of_record rec ≡ contents_of draft) }
    ensures fits { IfOk result (λ rec. IsTrue (fits rec.fields)) }
{
    match draft {
        Draft::Authority { name, variant } => authority(alloc, name, variant),
        Draft::LinkedAuthority {
            name,
            variant,
            other,
        } => linked_authority(alloc, name, variant, other),
        Draft::Deletion { name } => deletion(alloc, name),
        Draft::Bibliographic { number, author } => bibliographic(alloc, number, author),
    }
}
