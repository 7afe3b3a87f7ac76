//! `serve INDEX PORT CONNS`: requests of connections that are answered over an index file.
ghost use Rattle.std.specs.Prelude.{◌≡◌, ◌≤◌, ◌⊎◌, ℕ, List, true, IfErr, IfOk, OnErr, OnOk};
ghost use Rattle.std.specs.Option.{ForSome};
ghost use Rattle.cs_base.specs.outside.Causes.{Rose};
ghost use Rattle.cs_base.specs.outside.Hub.{IsOrderly, listens};
ghost use Rattle.cs_base.specs.outside.Outside.{GrewByPrefix, file_bytes};
ghost use Rattle.cs_base.specs.declared.content.limits.TheConstants.{MAX_PORT_DIGITS, MAX_PORT, MAX_CONNECTIONS_DIGITS, MAX_CONNECTIONS};
ghost use Rattle.cs_engine.specs.Keeping.{AreGood};
ghost use Rattle.cs_file.specs.Indexes.{HasAllBlocks, StandsFor};
ghost use Rattle.cs_hub.specs.{Ending.{EndsSo}, HubFollowing.{AreServed}, Speaking.{AreUnbroken}};
ghost use Rattle.cs_model_index.specs.Sections.{file_corpus};
ghost use Rattle.cs_indexing.specs.CommandLine.{is_number};
ghost use Rattle.cs_indexing.specs.Met.{HasToldSize, Listened, OfBytes, Wrote, listened, wrote};
ghost use Rattle.cs_indexing.specs.Views.{IsSized, OfFile, ReadsFiles, ended, stop_ending};
ghost use Rattle.cs_top.specs.Serve.{CanServe, HasToldPort, HasStopped, IsListening, IsUntouched, ServeCaused, ServeEnds, ServeTold, serving_line};

use crate::opening::open;
use cs_base::{Failed, FileStore, Files, Hub, Sink};
use cs_engine::Engine;
use cs_hub::ServeEnd;
use cs_indexing::{HeldFile, RunStop, conns_of, port_of, put_all, told_size};
use std::alloc::Global;

/// Answers what comes on so many connections over an index file, until all were opened and none is live, or nothing more comes.
pub(crate) fn serve_index<'a, F: Files, H: Hub, O: Sink>(
    alloc: Global,
    index: &'a str,
    port: &str,
    conns: &str,
    files: &mut F,
    hub: &mut H,
    out: &mut O,
) -> Result<(), RunStop<'a>>
    requires port { is_number MAX_PORT_DIGITS MAX_PORT port.now ≡ true }
    requires conns { is_number MAX_CONNECTIONS_DIGITS MAX_CONNECTIONS conns.now ≡ true }

    ensures ends { ServeEnds (ended result) index.now port.now conns.now (wrote O.Sink out.old out.new) (listened H.Hub hub.old hub.new) }
    ensures told { ForSome (F.held files.old) (λ h. ServeTold (ended result) h index.now port.now conns.now (F.faults files.old) (F.faults files.new) (wrote O.Sink out.old out.new) (listened H.Hub hub.old hub.new)) }
    ensures caused { ServeCaused (ended result) (F.faults files.old) (F.faults files.new) (O.faults out.old) (O.faults out.new) (H.faults hub.old) (H.faults hub.new) }
    ensures files { F.held files.new ≡ F.held files.old }
{
    let (mut engine, size) = prepare(alloc, files, index)?;
    begin(hub, out, port, conns)?;
    let file = HeldFile { name: index, size };
    match serve_file(alloc, &mut engine, files, file, hub, conns_of(conns)) {
        ServeEnd::Done => Ok(()),
        ServeEnd::HubFailed => Err(RunStop::Failed),
        ServeEnd::Memory => Err(RunStop::Memory),
    }
}

// The engine of the index file, and the file's size.
fn prepare<'a, F: Files>(
    alloc: Global,
    files: &mut F,
    index: &'a str,
) -> Result<(Engine, u64), RunStop<'a>>
    ensures size { IfOk result (λ p. HasToldSize (F.held files.old) index.now p.1) }
    ensures stands { OfBytes (F.held files.old) index.now (λ b. IfOk result (λ p. StandsFor b p.0.index)) }
    ensures good { (b : List ℕ) → IfOk result (λ p. AreGood b p.0) }
    ensures ready { ForSome (F.held files.old) (λ h. OnOk result (CanServe h index.now)) }
    ensures fits { IfOk result (λ p. HasAllBlocks (file_bytes (F.held files.new) index.now) p.0.index) }
    ensures ends { IfErr result (λ s. (p : List ℕ) → (n : List ℕ) → (w : Wrote) → (net : Listened) → IsUntouched w net → net.new.faults ≡ net.old.faults → ServeEnds (stop_ending s) index.now p n w net) }
    ensures told { ForSome (F.held files.old) (λ h. IfErr result (λ s. (p : List ℕ) → (n : List ℕ) → (before : ℕ) → (now : ℕ) → (w : Wrote) → (net : Listened) → IsUntouched w net → net.new.faults ≡ net.old.faults → ServeTold (stop_ending s) h index.now p n before now w net)) }
    ensures reads { ReadsFiles (F.held files.old) (F.held files.new) (F.faults files.old) (F.faults files.new) result }
{
    let size = told_size(files, index)?;
    let engine = open(alloc, files, HeldFile { name: index, size })?;
    Ok((engine, size))
}

// Listens, and puts the line.
fn begin<H: Hub, O: Sink>(hub: &mut H, out: &mut O, port: &str, conns: &str) -> Result<(), Failed>
    requires port { is_number MAX_PORT_DIGITS MAX_PORT port.now ≡ true }
    requires conns { is_number MAX_CONNECTIONS_DIGITS MAX_CONNECTIONS conns.now ≡ true }

    ensures put { OnOk result (HasToldPort port.now (wrote O.Sink out.old out.new)) }
    ensures listening { OnOk result (IsListening port.now conns.now (listened H.Hub hub.old hub.new)) }
    ensures orderly { OnOk result (IsOrderly (H.state hub.new) (H.talk hub.new)) }
    ensures quiet { OnOk result (H.faults hub.new ≡ H.faults hub.old) }
    ensures hub_later { H.faults hub.old ≤ H.faults hub.new }
    ensures stopped { OnErr result (HasStopped port.now conns.now (wrote O.Sink out.old out.new) (listened H.Hub hub.old hub.new)) }
    ensures caused { OnErr result (Rose (O.faults out.old) (O.faults out.new) ⊎ Rose (H.faults hub.old) (H.faults hub.new)) }
    ensures later { O.faults out.old ≤ O.faults out.new }
{
    hub.listen(port_of(port), conns_of(conns))?;
    put_line(out, port)
}

fn put_line<O: Sink>(out: &mut O, port: &str) -> Result<(), Failed>
    ensures ok { OnOk result (HasToldPort port.now (wrote O.Sink out.old out.new)) }
    ensures err { OnErr result (GrewByPrefix (O.written out.old) (serving_line port.now) (O.written out.new)) }
    ensures failed { OnErr result (Rose (O.faults out.old) (O.faults out.new)) }
    ensures later { O.faults out.old ≤ O.faults out.new }
{
    put_all(out, &[b"serving ", port.as_bytes(), b"\n"])
}

// Serves over a file.
fn serve_file<F: Files, H: Hub>(
    alloc: Global,
    engine: &mut Engine,
    files: &mut F,
    file: HeldFile<'_>,
    hub: &mut H,
    conns: u32,
) -> ServeEnd
    requires size { IsSized (F.held files.old) file }
    requires fits { HasAllBlocks (file_bytes (F.held files.old) file.name.now) engine.old.index }
    requires listens { (port : ℕ) × (H.state hub.old ≡ listens port conns) }
    requires orderly { IsOrderly (H.state hub.old) (H.talk hub.old) }

    ensures served { OfFile (F.held files.old) file.entry (λ b. StandsFor b engine.old.index → AreGood b engine.old → AreServed (file_corpus b) (H.state hub.new) (H.talk hub.new) (F.faults files.old) (F.faults files.new)) }
    ensures ends { EndsSo result conns (H.state hub.old) (H.state hub.new) (H.faults hub.old) (H.faults hub.new) }
    ensures memory { result ≡ ServeEnd.Memory → (H.state hub.new ≡ H.state hub.old) × (H.talk hub.new ≡ H.talk hub.old) × (F.faults files.new ≡ F.faults files.old) × (H.send_faults hub.new ≡ H.send_faults hub.old) }
    ensures unbroken { ¬ Rose (H.send_faults hub.old) (H.send_faults hub.new) → ForSome (H.talk hub.new) AreUnbroken }
    ensures sends_later { H.send_faults hub.old ≤ H.send_faults hub.new }
    ensures files { F.held files.new ≡ F.held files.old }
    ensures later { F.faults files.old ≤ F.faults files.new }
{
    let mut store = FileStore::new(files, file.name, file.size);
    cs_hub::serve(alloc, engine, &mut store, hub, conns)
}
