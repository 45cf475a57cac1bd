//! The ranges of a message's numbers, which its types ensure.

ghost use Rattle.std.specs.Prelude.{◌<◌, ◌^◌, All, IfSome};
ghost use Rattle.bufr_sections.specs.Sections.{AreOctets, HeadFits};
ghost use Rattle.bufr_sections.specs.SectionsRead.{message_lent};
ghost use Rattle.bufr_message.specs.Laws.{NumbersFit};

use bufr_base::Items;
use bufr_data::Subset;
use bufr_sections::{Head, LentSections};
use bufr_tables::Fxy;

/// Shows that the numbers of a message fit their fields, and does nothing else.
pub(crate) fn numbers_fit(sections: &LentSections<'_>, subsets: &[Subset])
    ensures { NumbersFit (message_lent sections.now subsets.now) }
{
    let _subsets = subsets;
    head_fits(sections.head);
    section2_fits(sections.section2);
    descriptors_fit(sections.descriptors);
}

fn head_fits(head: &Head)
    ensures { HeadFits head.now }
{
    pairs_fit(&[head.centre, head.sub_centre, head.year]);
    octets_fit(&[
        head.update,
        head.category,
        head.international,
        head.local_category,
    ]);
    octets_fit(&[
        head.master_version,
        head.local_version,
        head.month,
        head.day,
    ]);
    octets_fit(&[head.hour, head.minute, head.second]);
    octets_fit(head.local.as_slice());
}

fn section2_fits(section2: &Option<Items<u8>>)
    ensures { IfSome section2.now AreOctets }
{
    if let Some(local) = section2 {
        octets_fit(local.as_slice());
    }
}

fn octets_fit(octets: &[u8])
    ensures { AreOctets octets.now }
{}

fn pairs_fit(numbers: &[u16])
    ensures { All (λ n. n < 2 ^ 16) numbers.now }
{}

fn descriptors_fit(descriptors: &[Fxy])
    ensures { All (λ d. d < 2 ^ 16) descriptors.now }
{
    for descriptor in descriptors {
        let _bits = descriptor.bits();
    }
}
