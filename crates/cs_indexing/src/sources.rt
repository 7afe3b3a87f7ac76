//! A source of an index file: a collection, or what is translated into one.
ghost use Rattle.std.specs.{Option.{option_map}, Prelude.{◌≡◌, ◌<◌, ℕ, List, Some, None, IfOk, IfErr, OnOk, length}};
ghost use Rattle.cs_base.specs.declared.content.limits.TheConstants.{MAX_COLLECTION_BYTES};
ghost use Rattle.cs_docs.specs.FaultRefusals.{reason_text, refusal_of};
ghost use Rattle.cs_model.specs.{Collection.{weights}, Corpus.{corpus, refusal}};
ghost use Rattle.cs_model_sources.specs.{CsvSources.{flat_of_csv}, JsonSources.{flat_of_jsonl}};
ghost use Rattle.cs_model_sources.specs.SourceRefusals.{csv_words, earlier, flat_refusal, jsonl_words, of_line, source_refusal, why_words};
ghost use Rattle.cs_indexing.specs.Filed.{HasFile, IsFiled};
ghost use Rattle.cs_indexing.specs.Import.{IsAcceptedAs, collection_in, refused_words};
ghost use Rattle.cs_indexing.specs.Views.{IsFlatCause, IsImportCause, IsOfSource, IsSized, IsSourceCause, IsStopCause, OfFile, ReadsFiles, collection_refusal_of, fault_form, import_refusal_of, size_refusal_of, source_refusal_of};
ghost use Rattle.cs_indexing.specs.declared.words.Form.TheVariants as forms;

use crate::collection::{CollectionFault, image_of_collection};
use crate::ending::RunStop;
use crate::files::{HeldFile, read_all};
use crate::words::Form;
use cs_base::{Files, MAX_COLLECTION_BYTES};
use cs_docs::{DocFault, Reason, lent_docs};
use cs_file::Image;
use cs_more::{BadLine, Flat, FlatFault, Why, flat_csv, flat_jsonl};
use std::alloc::Global;

/// Why a source that is translated makes no corpus: what refused it, or what found no memory.
#[derive(Clone, Copy, Debug, PartialEq, Eq)]
pub enum ImportFault {
    /// Its size, or that of its translation.
    Size(FlatFault),
    /// A line of its own.
    Line(BadLine),
    /// The collection that it is translated into.
    Collection(CollectionFault),
}

/// Why a source makes no corpus, for each form.
#[derive(Clone, Copy, Debug, PartialEq, Eq)]
pub enum SourceFault {
    /// Of a collection.
    Collection(CollectionFault),
    /// Of a table of comma-separated values.
    Csv(ImportFault),
    /// Of lines of JSON.
    JsonLines(ImportFault),
}

impl SourceFault {
    /// The words of a refusal; None where memory ran out.
    pub(crate) fn reason(self) -> Option<Reason<'static>>
        ensures { option_map reason_text result ≡ option_map refused_words (source_refusal_of self) }
    {
        match self {
            SourceFault::Collection(fault) => fault.reason(),
            SourceFault::Csv(fault) => fault.reason(),
            SourceFault::JsonLines(fault) => fault.earlier().reason(),
        }
    }
}

impl ImportFault {
    // The words of a refusal, by the numbers of the translation's lines; None where memory ran out.
    fn reason(self) -> Option<Reason<'static>>
        ensures { option_map reason_text result ≡ option_map csv_words (import_refusal_of self) }
    {
        match self {
            ImportFault::Size(fault) => size_reason(fault),
            ImportFault::Line(bad) => Some(line_reason(bad)),
            ImportFault::Collection(fault) => fault.reason(),
        }
    }

    // The same fault by the numbers of the source's lines, where the translation has the weights line in front of them.
    fn earlier(self) -> ImportFault
        ensures { option_map csv_words (import_refusal_of result) ≡ option_map jsonl_words (import_refusal_of self) }
    {
        match self {
            ImportFault::Size(fault) => ImportFault::Size(fault),
            ImportFault::Line(bad) => ImportFault::Line(bad),
            ImportFault::Collection(fault) => ImportFault::Collection(earlier_fault(fault)),
        }
    }
}

/// The image of a source's collection.
pub(crate) fn source_image<'a, F: Files>(
    alloc: Global,
    files: &mut F,
    form: Form,
    source: HeldFile<'_>,
) -> Result<Image, RunStop<'a>>
    requires size { IsSized (F.held files.old) source }

    ensures ok { OfFile (F.held files.old) source.entry (λ b. IfOk result (IsFiled (corpus (collection_in form b)) (weights (collection_in form b)))) }
    ensures accepted { OfFile (F.held files.old) source.entry (λ b. OnOk result (IsAcceptedAs form b)) }
    ensures cause { OfFile (F.held files.old) source.entry (λ b. IfErr result (λ s. IsStopCause form b s)) }
    ensures file { IfOk result HasFile }
    ensures kind { IfErr result (IsOfSource form) }
    ensures reads { ReadsFiles (F.held files.old) (F.held files.new) (F.faults files.old) (F.faults files.new) result }
{
    let bytes = read_source(alloc, files, form, source)?;
    match image_in(alloc, form, bytes) {
        Ok(image) => Ok(image),
        Err(fault) => Err(RunStop::Collection(fault)),
    }
}

/// The bytes of a collection that is accepted, and its image.
pub fn read_collection<'a, F: Files>(
    alloc: Global,
    files: &mut F,
    collection: HeldFile<'_>,
) -> Result<(Vec<u8>, Image), RunStop<'a>>
    requires size { IsSized (F.held files.old) collection }

    ensures bytes { OfFile (F.held files.old) collection.entry (λ b. IfOk result (λ p. p.0.items ≡ b)) }
    ensures accepted { IfOk result (λ p. refusal p.0.items ≡ None) }
    ensures filed { IfOk result (λ p. IsFiled (corpus p.0.items) (weights p.0.items) p.1) }
    ensures file { IfOk result (λ p. HasFile p.1) }
    ensures cause { OfFile (F.held files.old) collection.entry (λ b. IfErr result (λ s. IsStopCause forms.Collection b s)) }
    ensures kind { IfErr result (IsOfSource forms.Collection) }
    ensures reads { ReadsFiles (F.held files.old) (F.held files.new) (F.faults files.old) (F.faults files.new) result }
{
    let bytes = read_source(alloc, files, Form::Collection, collection)?;
    match image_of_collection(alloc, &bytes) {
        Ok(imaged) => Ok((bytes, imaged.image)),
        Err(fault) => Err(RunStop::Collection(SourceFault::Collection(fault))),
    }
}

// All bytes of a source that isn't above the limit.
fn read_source<'a, F: Files>(
    alloc: Global,
    files: &mut F,
    form: Form,
    source: HeldFile<'_>,
) -> Result<Vec<u8>, RunStop<'a>>
    requires size { IsSized (F.held files.old) source }

    ensures ok { OfFile (F.held files.old) source.entry (λ b. IfOk result (λ v. v.items ≡ b)) }
    ensures cause { OfFile (F.held files.old) source.entry (λ b. IfErr result (λ s. IsStopCause form b s)) }
    ensures kind { IfErr result (IsOfSource form) }
    ensures reads { ReadsFiles (F.held files.old) (F.held files.new) (F.faults files.old) (F.faults files.new) result }
{
    if source.size > MAX_COLLECTION_BYTES as u64 {
        return Err(RunStop::Collection(too_large(form)));
    }
    let bytes = read_all(alloc, files, source)?;
    Ok(bytes)
}

// The fault of a source above the limit.
fn too_large(form: Form) -> SourceFault
    ensures cause { (b : List ℕ) → MAX_COLLECTION_BYTES < length b → IsSourceCause form b result }
    ensures form { fault_form result ≡ form }
{
    let fault = CollectionFault::Documents(DocFault::TooLarge);
    match form {
        Form::Collection => SourceFault::Collection(fault),
        Form::Csv => SourceFault::Csv(ImportFault::Collection(fault)),
        Form::JsonLines => SourceFault::JsonLines(ImportFault::Collection(fault)),
    }
}

// The image of the collection that these bytes give.
fn image_in(alloc: Global, form: Form, bytes: Vec<u8>) -> Result<Image, SourceFault>
    ensures ok { IfOk result (IsFiled (corpus (collection_in form bytes.items)) (weights (collection_in form bytes.items))) }
    ensures accepted { OnOk result (IsAcceptedAs form bytes.items) }
    ensures file { IfOk result HasFile }
    ensures cause { IfErr result (IsSourceCause form bytes.items) }
    ensures form { IfErr result (λ f. fault_form f ≡ form) }
{
    match form {
        Form::Collection => match image_of_collection(alloc, &bytes) {
            Ok(imaged) => Ok(imaged.image),
            Err(fault) => Err(SourceFault::Collection(fault)),
        },
        Form::Csv => match image_of_csv(alloc, bytes) {
            Ok(image) => Ok(image),
            Err(fault) => Err(SourceFault::Csv(fault)),
        },
        Form::JsonLines => match image_of_jsonl(alloc, bytes) {
            Ok(image) => Ok(image),
            Err(fault) => Err(SourceFault::JsonLines(fault)),
        },
    }
}

// The image of a table's translation. The table isn't held while it is made.
fn image_of_csv(alloc: Global, table: Vec<u8>) -> Result<Image, ImportFault>
    ensures ok { IfOk result (IsFiled (corpus (flat_of_csv table.items).tsv) (weights (flat_of_csv table.items).tsv)) }
    ensures accepted { OnOk result (source_refusal flat_of_csv table.items ≡ None) }
    ensures file { IfOk result HasFile }
    ensures err { IfErr result (IsImportCause flat_of_csv table.items) }
{
    let flat = match flat_csv(alloc, &table) {
        Ok(flat) => flat,
        Err(fault) => return Err(ImportFault::Size(fault)),
    };
    drop(table);
    let image = image_of_flat(alloc, &flat)?;
    Ok(image)
}

// The image of the translation of lines of JSON. The lines aren't held while it is made.
fn image_of_jsonl(alloc: Global, lines: Vec<u8>) -> Result<Image, ImportFault>
    ensures ok { IfOk result (IsFiled (corpus (flat_of_jsonl lines.items).tsv) (weights (flat_of_jsonl lines.items).tsv)) }
    ensures accepted { OnOk result (source_refusal flat_of_jsonl lines.items ≡ None) }
    ensures file { IfOk result HasFile }
    ensures err { IfErr result (IsImportCause flat_of_jsonl lines.items) }
{
    let flat = match flat_jsonl(alloc, &lines) {
        Ok(flat) => flat,
        Err(fault) => return Err(ImportFault::Size(fault)),
    };
    drop(lines);
    let image = image_of_flat(alloc, &flat)?;
    Ok(image)
}

// The image of a translation that is accepted.
fn image_of_flat(alloc: Global, flat: &Flat) -> Result<Image, ImportFault>
    ensures ok { IfOk result (IsFiled (corpus flat.now.tsv) (weights flat.now.tsv)) }
    ensures accepted { OnOk result (flat_refusal flat.now ≡ None) }
    ensures file { IfOk result HasFile }
    ensures err { IfErr result (IsFlatCause flat.now) }
{
    if let Some(bad) = flat.bad {
        return Err(first_fault(alloc, flat, bad));
    }
    match image_of_collection(alloc, flat.tsv.as_slice()) {
        Ok(imaged) => Ok(imaged.image),
        Err(fault) => Err(ImportFault::Collection(fault)),
    }
}

// The fault of a translation with a bad line: that of a document in front of it, else the line.
fn first_fault(alloc: Global, flat: &Flat, bad: BadLine) -> ImportFault
    requires { flat.now.bad ≡ Some bad }

    ensures { IsFlatCause flat.now result }
{
    match lent_docs(alloc, flat.tsv.as_slice()) {
        Ok(_) => ImportFault::Line(bad),
        Err(fault) => ImportFault::Collection(CollectionFault::Documents(fault)),
    }
}

fn size_reason(fault: FlatFault) -> Option<Reason<'static>>
    ensures { option_map reason_text result ≡ option_map csv_words (size_refusal_of fault) }
{
    match fault {
        FlatFault::TooLarge => DocFault::TooLarge.reason(),
        FlatFault::Memory => None,
    }
}

fn line_reason(bad: BadLine) -> Reason<'static>
    ensures { reason_text result ≡ csv_words (of_line bad) }
{
    Reason {
        line: Some(u64::from(bad.line)),
        words: why_words(bad.why),
    }
}

fn why_words(why: Why) -> &'static [u8]
    ensures { result.now ≡ why_words why }
{
    match why {
        Why::Header => b"bad header",
        Why::Json => b"not JSON",
        Why::Field => b"bad field",
    }
}

// A collection's fault by the number of the line before.
fn earlier_fault(fault: CollectionFault) -> CollectionFault
    ensures { collection_refusal_of result ≡ option_map earlier (collection_refusal_of fault) }
{
    match fault {
        CollectionFault::Documents(fault) => CollectionFault::Documents(earlier_line(fault)),
        CollectionFault::Rows(fault) => CollectionFault::Rows(fault),
        CollectionFault::Words(fault) => CollectionFault::Words(fault),
    }
}

fn earlier_line(fault: DocFault) -> DocFault
    ensures { refusal_of result ≡ option_map earlier (refusal_of fault) }
{
    match fault {
        DocFault::TooLarge => DocFault::TooLarge,
        DocFault::NotUtf8 { line } => DocFault::NotUtf8 {
            line: line.saturating_sub(1),
        },
        DocFault::LineTooLong { line } => DocFault::LineTooLong {
            line: line.saturating_sub(1),
        },
        DocFault::BadWeights { line } => DocFault::BadWeights {
            line: line.saturating_sub(1),
        },
        DocFault::WordsTooMany { line } => DocFault::WordsTooMany {
            line: line.saturating_sub(1),
        },
        DocFault::BadFacet { line } => DocFault::BadFacet {
            line: line.saturating_sub(1),
        },
        DocFault::BadName { line } => DocFault::BadName {
            line: line.saturating_sub(1),
        },
        DocFault::TooManyDocs { line } => DocFault::TooManyDocs {
            line: line.saturating_sub(1),
        },
        DocFault::Memory => DocFault::Memory,
    }
}
