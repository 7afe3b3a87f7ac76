//! `ask COLLECTION SCRIPT` and `excerpts COLLECTION SCRIPT`: a script that is answered over a collection, with its index file in
//! memory.
ghost use Rattle.std.specs.Prelude.{◌≡◌, ℕ, List, None, IfOk, IfErr, OnOk};
ghost use Rattle.std.specs.Option.{ForSome};
ghost use Rattle.cs_model.specs.{Collection.{weights}, Corpus.{corpus, refusal}};
ghost use Rattle.cs_indexing.specs.CommandLine.{Caused};
ghost use Rattle.cs_indexing.specs.Filed.{HasFile, IsFiled};
ghost use Rattle.cs_indexing.specs.Met.{HasToldSize, OfBytes, Wrote, wrote};
ghost use Rattle.cs_indexing.specs.Views.{IsSized, ReadsFiles, ended, stop_ending};
ghost use Rattle.cs_indexing.specs.declared.words.HitForm.{HitForm};
ghost use Rattle.cs_top.specs.ScriptRuns.{AskEnds, AskStops, AskTold, IsAskedOver, IsReady};
ghost use Rattle.cs_top.specs.HitForms.{form_by};

use crate::answering::IndexFile;
use crate::opening::open_image;
use crate::script::{WhatCame, answer_script};
use crate::showing::{Showing, documents_of};
use cs_base::{Files, Sink};
use cs_file::Image;
use cs_indexing::{HeldFile, HitForm, RunStop, read_collection, told_size};
use std::alloc::Global;

/// Answers each line of a script over a collection, whose hits are shown in this form.
pub(crate) fn ask<'a, F: Files, O: Sink>(
    alloc: Global,
    form: HitForm,
    collection: &'a str,
    script: &'a str,
    files: &mut F,
    out: &mut O,
) -> Result<(), RunStop<'a>>
    ensures ends { AskEnds form (ended result) collection.now script.now (wrote O.Sink out.old out.new) }
    ensures told { ForSome (F.held files.old) (λ h. AskTold form (ended result) h collection.now script.now (wrote O.Sink out.old out.new)) }
    ensures caused { Caused (ended result) (F.faults files.old) (F.faults files.new) (O.faults out.old) (O.faults out.new) }
    ensures files { F.held files.new ≡ F.held files.old }
{
    let (bytes, image, size) = prepare(alloc, collection, script, files)?;
    let script = HeldFile { name: script, size };
    match form {
        HitForm::Titled => {
            drop(bytes);
            let showing = Showing::titled(alloc);
            answer_over(&showing, image, script, files, out)
        }
        HitForm::Excerpted => {
            let documents = documents_of(alloc, &bytes)?;
            let showing = Showing::excerpted(alloc, &documents);
            answer_over(&showing, image, script, files, out)
        }
    }
}

// The bytes of the collection, its image, and the script's size.
fn prepare<'a, F: Files>(
    alloc: Global,
    collection: &'a str,
    script: &'a str,
    files: &mut F,
) -> Result<(Vec<u8>, Image, u64), RunStop<'a>>
    ensures ready { ForSome (F.held files.old) (λ h. OnOk result (IsReady h collection.now script.now)) }
    ensures bytes { OfBytes (F.held files.old) collection.now (λ b. IfOk result (λ p. p.0.items ≡ b)) }
    ensures accepted { IfOk result (λ p. refusal p.0.items ≡ None) }
    ensures filed { IfOk result (λ p. IsFiled (corpus p.0.items) (weights p.0.items) p.1) }
    ensures file { IfOk result (λ p. HasFile p.1) }
    ensures size { IfOk result (λ p. HasToldSize (F.held files.old) script.now p.2) }
    ensures stops { ForSome (F.held files.old) (λ h. IfErr result (λ s. AskStops (stop_ending s) h collection.now script.now)) }
    ensures ends { IfErr result (λ s. (form : HitForm) (w : Wrote) → w.new ≡ w.old → AskEnds form (stop_ending s) collection.now script.now w) }
    ensures reads { ReadsFiles (F.held files.old) (F.held files.new) (F.faults files.old) (F.faults files.new) result }
{
    let size = told_size(files, collection)?;
    let script_size = told_size(files, script)?;
    let collection = HeldFile {
        name: collection,
        size,
    };
    let (bytes, image) = read_collection(alloc, files, collection)?;
    Ok((bytes, image, script_size))
}

// Answers each line of a script over the index file of an image, which is held in memory.
fn answer_over<'a, F: Files, O: Sink>(
    showing: &Showing<'_>,
    image: Image,
    script: HeldFile<'_>,
    files: &mut F,
    out: &mut O,
) -> Result<(), RunStop<'a>>
    requires file { HasFile image }
    requires size { IsSized (F.held files.old) script }

    ensures ends { (c s : List ℕ) → AskEnds (form_by showing.now) (ended result) c s (wrote O.Sink out.old out.new) }
    ensures told { ForSome (F.held files.old) (λ h. (c : List ℕ) → IsAskedOver h c script.entry.name.now showing.now image
        → AskTold (form_by showing.now) (ended result) h c script.entry.name.now (wrote O.Sink out.old out.new)) }
    ensures caused { Caused (ended result) (F.faults files.old) (F.faults files.new) (O.faults out.old) (O.faults out.new) }
    ensures files { F.held files.new ≡ F.held files.old }
{
    let (mut engine, store) = open_image(showing.alloc, image, Vec::new(showing.alloc))?;
    let mut file = IndexFile::made(store);
    match answer_script(showing, &mut engine, &mut file, files, script, out) {
        Ok(WhatCame::Answered) => Ok(()),
        Ok(WhatCame::Read) => unreachable!(),
        Ok(WhatCame::Changed) => unreachable!(),
        Err(stop) => Err(RunStop::from(stop)),
    }
}
