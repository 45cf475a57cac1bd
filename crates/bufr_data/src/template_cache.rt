//! Lists of descriptors and templates, kept between messages.

ghost use Rattle.std.specs.Prelude.{◌≡◌, IfErr, IfOk, OnOk};
ghost use Rattle.bufr_base.specs.Answers.{Fails, Gives};
ghost use Rattle.bufr_expand.specs.Templates.{template};
ghost use Rattle.bufr_data.specs.Kept.{AreKept, IsInFront};

use crate::data_template::DataTemplate;
use crate::descriptor_list::DescriptorList;
use bufr_base::{Failure, Items};
use bufr_expand::{Template, TemplateFault};
use bufr_tables::{Fxy, Tables};
use std::alloc::Global;
use std::marker::Model;
use std::rc::Rc;

/// The most templates kept.
pub const MOST_KEPT: usize = 4;

/// A list of descriptors with its template.
#[derive(Drop)]
pub struct CachedTemplate {
    /// The list, which views share.
    pub descriptors: Rc<Items<Fxy>>,
    /// The template, with what it knows of plain subsets.
    pub template: DataTemplate,
}

/// A cache of the last four templates under some tables. Contracts see the tables.
#[derive(Drop)]
pub struct TemplateCache<'t> {
    tables: &'t Tables,
    kept: Vec<CachedTemplate>,
}

impl<'t> Model for TemplateCache<'t> {
    ghost use Rattle.bufr_tables.specs.Entries.{Entries};
    ghost use Rattle.bufr_data.specs.Kept.{AreKept};

    ghost Value = { Entries };

    ghost view = { λ t. t.tables.now };

    ghost invariant = { λ t. AreKept t.tables.now t.kept.items };
}

impl<'t> TemplateCache<'t> {
    /// Makes an empty cache.
    pub fn new(alloc: Global, tables: &'t Tables) -> TemplateCache<'t>
        ensures { result ≡ tables.now }
    {
        TemplateCache {
            tables,
            kept: Vec::new(alloc),
        }
    }

    /// Returns the template of a list or the first fault, like `Template::build`, and shares its
    /// nodes.
    pub fn template_of(
        &mut self,
        alloc: Global,
        list: &[Fxy],
    ) -> Result<Template, Failure<TemplateFault>>
        ensures same { self.new ≡ self.old }
        ensures exact { Gives (λ t. t) result (template self.old list.now) }
    {
        template_keeping(alloc, self.tables, &mut self.kept, list)
    }
}

/// Returns a template and moves it to the front, building it if needed.
fn template_keeping(
    alloc: Global,
    tables: &Tables,
    kept: &mut Vec<CachedTemplate>,
    list: &[Fxy],
) -> Result<Template, Failure<TemplateFault>>
    requires { AreKept tables.now kept.old.items }
    ensures are { AreKept tables.now kept.new.items }
    ensures exact { Gives (λ t. t) result (template tables.now list.now) }
{
    make_first(alloc, tables, kept, &list)?;
    let shared = kept[0].template.shared()?;
    Ok(shared)
}

/// Brings a list of descriptors to the front of the cache, building its template if needed.
pub fn make_first<L: DescriptorList>(
    alloc: Global,
    tables: &Tables,
    kept: &mut Vec<CachedTemplate>,
    list: &L,
) -> Result<(), Failure<TemplateFault>>
    requires { AreKept tables.now kept.old.items }
    ensures are { AreKept tables.now kept.new.items }
    ensures front { OnOk result (IsInFront (L.listed list.now) kept.new.items) }
    ensures fault { IfErr result (λ e. Fails e (template tables.now (L.listed list.now))) }
{
    if let Some(first) = kept.first() {
        if list.is(first.descriptors.as_slice()) {
            return Ok(());
        }
    }
    let own = taken(alloc, tables, kept, list)?;
    kept.truncate(MOST_KEPT - 1);
    kept.insert(0, own)?;
    Ok(())
}

/// Takes a list with its template out of the cache, or builds it.
fn taken<L: DescriptorList>(
    alloc: Global,
    tables: &Tables,
    kept: &mut Vec<CachedTemplate>,
    list: &L,
) -> Result<CachedTemplate, Failure<TemplateFault>>
    requires { AreKept tables.now kept.old.items }
    ensures are { AreKept tables.now kept.new.items }
    ensures list { IfOk result (λ k. k.descriptors.value ≡ L.listed list.now) }
    ensures exact { Gives (λ k. k.template) result (template tables.now (L.listed list.now)) }
{
    for index in 0..kept.len() {
        if list.is(kept[index].descriptors.as_slice()) {
            return Ok(kept.remove(index));
        }
    }
    let descriptors = list.to_items(alloc)?;
    let template = Template::build(alloc, tables, descriptors.as_slice())?;
    let descriptors = Rc::new(alloc, descriptors)?;
    Ok(CachedTemplate {
        descriptors,
        template: DataTemplate::new(template),
    })
}
