//! Some words, carried out in three calls: `begin` and `end` have the room, and `load` between them, which may wait, has none.
ghost use Rattle.std.specs.Prelude.{◌≡◌, ◌↔◌, ◌⊎◌, ◌∷◌, ℕ, ◌≤◌, List, Some, None, [], true, IfOk, IfErr};
ghost use Rattle.outside.specs.Room.{SameBut};
ghost use Rattle.command_words.specs.Command.{AreNames, Command, command_of, is_large};
ghost use Rattle.command_words.specs.Asked.{AsksFor, IsUnasked};
ghost use Rattle.command_words.specs.declared.asked.Request.{Request};
ghost use Rattle.console_lines.specs.Ends.{outcome};
ghost use Rattle.console_lines.specs.Faults.{IsFaultTold, fault_line};
ghost use Rattle.durable_catalogue.specs.Views.{durable_view};
ghost use Rattle.loading_commands.specs.Outcomes.{HasBegun, IsWaiting, HasRead};
ghost use Rattle.union_top.specs.Commands.{touched, CarriesOut, EndsWith};
ghost use Rattle.union_top.specs.Complete.{around, CountsStayed, IsUnhindered};
ghost use Rattle.union_top.specs.Misfits.{RefusesMisfits};
ghost use Rattle.union_top.specs.Sure.{IsSure};
ghost use Rattle.union_top.specs.Carried.{AreCarriedOut, unasked_fault};
ghost use Rattle.browsing_commands.specs.Browsing.{HasPaged};
ghost use Rattle.union_top.specs.Begun.{IfBrowsing, IfEnded, IfLoading, IsAskedToBrowse};

use crate::asked_alone::carry_out;
use browsing_commands::{Browsed, Browsing, load as load_browsing};
use command_words::laws::{files_are_named, names_are_apart, numbers_are_bounded};
use command_words::{BrowseRequest, LoadRequest, Request, Unasked, Words, request};
use console_lines::{Fault, tell};
use loading_commands::{Loaded, Loading, load};
use outside::{Gate, Room};
use std::alloc::Global;
use std::sync::Wait;
use std::thread::Threads;

/// What the beginning of a command comes to.
pub enum Begun<'a, R: Room> {
    /// It has ended, with that exit status.
    Ended(u8),
    /// It loads files: they are open, and so is the journal.
    Loading(Loading<'a, R>),
    /// It does so while a reader pages through the headings.
    Browsing(Browsing<'a, R>),
}

/// The fault that is told where words ask for nothing that can be done.
fn fault_of(why: Unasked) -> Fault
    ensures { result ≡ unasked_fault why }
{
    match why {
        Unasked::Usage => Fault::Usage,
        Unasked::NoMemory => Fault::Memory,
    }
}

/// Begins the loading that some words ask for, or ends its command.
fn begin_loading<'a, R: Room>(
    alloc: Global,
    words: &Words,
    asked: LoadRequest<'a>,
    room: &mut R,
    console: &mut R::Out,
) -> Begun<'a, R>
    requires asks { AsksFor words.now (Request.Load asked) }
    requires closed { (name : List ℕ) → (R.seen room.old).open_as name ≡ None }
    ensures closed { IfEnded result (λ _. (name : List ℕ) → (R.seen room.new).open_as name ≡ None) }
    ensures carried { IfEnded result (λ status. AreCarriedOut words.now status
        (around R.seen R.Out.written R.Out.faults room.old room.new console.old console.new)
        (outcome R.seen R.Out.written R.Out.faults room.old room.new console.old console.new)) }
    ensures browsing { IfBrowsing result (λ _. ⊥) }
    ensures asks { IfLoading result (λ l. AsksFor words.now (Request.Load l.asked)) }
    ensures before { IfLoading result (λ l. l.before.value ≡ room.old) }
    ensures begun { IfLoading result (λ l.
        HasBegun R.In.left R.In.faults (R.seen l.before.value) l.asked (durable_view l.durable) l.inputs) }
    ensures waiting { IfLoading result (λ l. IsWaiting (R.seen l.before.value) (R.seen room.new) l.asked.journal.now) }
    ensures silent { IfLoading result (λ _. console.new ≡ console.old) }
{
    files_are_named(words);
    names_are_apart(words);
    numbers_are_bounded(words);
    match loading_commands::begin(alloc, asked, room, console) {
        Ok(loading) => Begun::Loading(loading),
        Err(end) => Begun::Ended(end.status()),
    }
}

/// Begins the loading beside a reader that some words ask for, or ends its command.
fn begin_browsing<'a, R: Room>(
    alloc: Global,
    words: &Words,
    asked: BrowseRequest<'a>,
    room: &mut R,
    console: &mut R::Out,
) -> Begun<'a, R>
    requires asks { AsksFor words.now (Request.Browse asked) }
    requires closed { (name : List ℕ) → (R.seen room.old).open_as name ≡ None }
    ensures closed { IfEnded result (λ _. (name : List ℕ) → (R.seen room.new).open_as name ≡ None) }
    ensures carried { IfEnded result (λ status. AreCarriedOut words.now status
        (around R.seen R.Out.written R.Out.faults room.old room.new console.old console.new)
        (outcome R.seen R.Out.written R.Out.faults room.old room.new console.old console.new)) }
    ensures loading { IfLoading result (λ _. ⊥) }
    ensures asks { IfBrowsing result (λ b. IsAskedToBrowse words.now b.loading.asked b.outputs b.pages) }
    ensures names { IfBrowsing result (λ b. AreNames (b.loading.asked.journal.now ∷ b.outputs.out.now ∷ b.outputs.report.now ∷ b.pages.now ∷ [])) }
    ensures before { IfBrowsing result (λ b. b.loading.before.value ≡ room.old) }
    ensures begun { IfBrowsing result (λ b. HasBegun R.In.left R.In.faults (R.seen b.loading.before.value) b.loading.asked
        (durable_view b.loading.durable) b.loading.inputs) }
    ensures waiting { IfBrowsing result (λ b. IsWaiting (R.seen b.loading.before.value) (R.seen room.new) b.loading.asked.journal.now) }
    ensures silent { IfBrowsing result (λ _. console.new ≡ console.old) }
{
    files_are_named(words);
    names_are_apart(words);
    numbers_are_bounded(words);
    match browsing_commands::begin(alloc, asked, room, console) {
        Ok(browsing) => Begun::Browsing(browsing),
        Err(ended) => Begun::Ended(ended.status()),
    }
}

/// Begins the command of some words, by what they ask for. One that loads no files is carried out, and words that are no command are
/// told of: then the status is as `run` answers it. Else the journal and the files are opened. It waits for no thread and no lock.
pub fn begin<'a, R: Room>(
    alloc: Global,
    words: &Words,
    asked: Result<Request<'a>, Unasked>,
    room: &mut R,
    console: &mut R::Out,
) -> Begun<'a, R>
    requires closed { (name : List ℕ) → (R.seen room.old).open_as name ≡ None }

    // The room has the limits that the words ask for.
    requires large { (R.seen room.old).is_large ≡ is_large words.now }

    // It is what `request` answers to the words.
    requires asked { IfOk asked (AsksFor words.now) }
    requires unasked { IfErr asked (λ why. IsUnasked why (command_of words.now)) }

    // What has ended is carried out.
    ensures closed { IfEnded result (λ _. (name : List ℕ) → (R.seen room.new).open_as name ≡ None) }
    ensures carried { IfEnded result (λ status. AreCarriedOut words.now status
        (around R.seen R.Out.written R.Out.faults room.old room.new console.old console.new)
        (outcome R.seen R.Out.written R.Out.faults room.old room.new console.old console.new)) }

    // What is to be loaded was begun in this room, and the console is told nothing.
    ensures asks { IfLoading result (λ l. AsksFor words.now (Request.Load l.asked)) }
    ensures before { IfLoading result (λ l. l.before.value ≡ room.old) }
    ensures begun { IfLoading result (λ l.
        HasBegun R.In.left R.In.faults (R.seen l.before.value) l.asked (durable_view l.durable) l.inputs) }
    ensures waiting { IfLoading result (λ l. IsWaiting (R.seen l.before.value) (R.seen room.new) l.asked.journal.now) }
    ensures silent { IfLoading result (λ _. console.new ≡ console.old) }

    // The same of what is to be loaded beside a reader.
    ensures asks_to_browse { IfBrowsing result (λ b. IsAskedToBrowse words.now b.loading.asked b.outputs b.pages) }
    ensures browsing_names { IfBrowsing result (λ b. AreNames (b.loading.asked.journal.now ∷ b.outputs.out.now ∷ b.outputs.report.now ∷ b.pages.now ∷ [])) }
    ensures browsing_before { IfBrowsing result (λ b. b.loading.before.value ≡ room.old) }
    ensures browsing_begun { IfBrowsing result (λ b. HasBegun R.In.left R.In.faults (R.seen b.loading.before.value) b.loading.asked
        (durable_view b.loading.durable) b.loading.inputs) }
    ensures browsing_waiting { IfBrowsing result (λ b. IsWaiting (R.seen b.loading.before.value) (R.seen room.new) b.loading.asked.journal.now) }
    ensures browsing_silent { IfBrowsing result (λ _. console.new ≡ console.old) }
{
    match asked {
        Ok(Request::Alone(asked)) => {
            Begun::Ended(carry_out(alloc, words, asked, room, console).status())
        }
        Ok(Request::Load(asked)) => begin_loading(alloc, words, asked, room, console),
        Ok(Request::Browse(asked)) => begin_browsing(alloc, words, asked, room, console),
        Err(why) => Begun::Ended(tell(console, fault_of(why)).status()),
    }
}

/// Ends the command of a loading, once its files are loaded, and answers its exit status, as `run` does. It waits for no thread and no
/// lock.
pub fn end<R: Room>(alloc: Global, loaded: Loaded<'_, R>, room: &mut R, console: &mut R::Out) -> u8
    requires read { HasRead R.In.left R.In.faults (R.seen loaded.before.value) loaded.asked (durable_view loaded.durable) loaded.inputs loaded.results }
    requires waiting { IsWaiting (R.seen loaded.before.value) (R.seen room.old) loaded.asked.journal.now }
    ensures closed { (name : List ℕ) → (R.seen room.new).open_as name ≡ None }

    // The words that asked for it are carried out, since the room was as before they were begun.
    ensures carried { (words : List (List ℕ)) → AsksFor words (Request.Load loaded.entry.asked) → AreCarriedOut words result
        (around R.seen R.Out.written R.Out.faults loaded.entry.before.value room.new console.old console.new)
        (outcome R.seen R.Out.written R.Out.faults loaded.entry.before.value room.new console.old console.new) }
{
    loading_commands::end(alloc, loaded, room, console).status()
}

/// Ends the command of a loading beside a reader, once its files are loaded, and answers its exit status, as `run` does. It waits for no
/// thread and no lock.
pub fn end_browsing<R: Room>(
    alloc: Global,
    browsed: Browsed<'_, R>,
    room: &mut R,
    console: &mut R::Out,
) -> u8
    requires read { HasRead R.In.left R.In.faults (R.seen browsed.loaded.before.value) browsed.loaded.asked (durable_view browsed.loaded.durable)
        browsed.loaded.inputs browsed.loaded.results }
    requires waiting { IsWaiting (R.seen browsed.loaded.before.value) (R.seen room.old) browsed.loaded.asked.journal.now }
    requires paged { HasPaged (durable_view browsed.loaded.durable) browsed.got }
    requires names { AreNames (browsed.loaded.asked.journal.now ∷ browsed.outputs.out.now ∷ browsed.outputs.report.now ∷ browsed.pages.now ∷ []) }
    ensures closed { (name : List ℕ) → (R.seen room.new).open_as name ≡ None }

    // The words that asked for it are carried out, since the room was as before they were begun.
    ensures carried { (words : List (List ℕ)) → IsAskedToBrowse words browsed.entry.loaded.asked browsed.entry.outputs browsed.entry.pages →
        AreCarriedOut words result
        (around R.seen R.Out.written R.Out.faults browsed.entry.loaded.before.value room.new console.old console.new)
        (outcome R.seen R.Out.written R.Out.faults browsed.entry.loaded.before.value room.new console.old console.new) }
{
    browsing_commands::end(alloc, browsed, room, console).status()
}

/// Carries out the command of some words: what they ask for is begun, loaded where there are files, and ended.
fn carry_through<H: Threads + Wait + Sync, R: Room, G: Gate + Sync>(
    rt: &H,
    alloc: Global,
    words: &Words,
    room: &mut R,
    console: &mut R::Out,
    gate: &G,
) -> u8
    requires closed { (name : List ℕ) → (R.seen room.old).open_as name ≡ None }
    requires large { (R.seen room.old).is_large ≡ is_large words.now }
    ensures closed { (name : List ℕ) → (R.seen room.new).open_as name ≡ None }
    ensures carried { AreCarriedOut words.now result
        (around R.seen R.Out.written R.Out.faults room.old room.new console.old console.new)
        (outcome R.seen R.Out.written R.Out.faults room.old room.new console.old console.new) }
{
    match begin(alloc, words, request(alloc, words), room, console) {
        Begun::Ended(status) => status,
        Begun::Loading(loading) => {
            let loaded = load(rt, alloc, loading, gate);
            end(alloc, loaded, room, console)
        }
        Begun::Browsing(browsing) => {
            let browsed = load_browsing(rt, alloc, browsing, gate);
            end_browsing(alloc, browsed, room, console)
        }
    }
}

/// Carries out the command of some words over a room, and answers its exit status: 0, or 1 where something was refused; 2 where
/// the words are no command, 3 where an input failed, 4 where an output failed, 5 where the journal's device failed, 6 where it is no
/// journal, 7 where there is more than a catalogue takes, 8 where memory ran out, 9 where a journal's
/// version is not the one that is wanted, 10 where another journal's history is not how this one's begins, 11 where the parts of a
/// catalogue differ.
pub fn run<H: Threads + Wait + Sync, R: Room, G: Gate + Sync>(
    rt: &H,
    alloc: Global,
    words: &Words,
    room: &mut R,
    console: &mut R::Out,
    gate: &G,
) -> u8
    requires closed { (name : List ℕ) → (R.seen room.old).open_as name ≡ None }

    // The room has the limits that the words ask for: with `large` before them those of a large catalogue, and else the plain ones.
    requires large { (R.seen room.old).is_large ≡ is_large words.now }
    ensures closed { (name : List ℕ) → (R.seen room.new).open_as name ≡ None }

    // Words that are no command change nothing, and the console is told so.
    ensures usage { result ≡ 2 ↔ command_of words.now ≡ None }
    ensures unchanged { result ≡ 2 → SameBut (R.seen room.old) (R.seen room.new) [] }
    ensures usage_told { result ≡ 2 → IsFaultTold (R.Out.written console.old) (R.Out.written console.new)
        (R.Out.faults console.old) (R.Out.faults console.new) (fault_line Fault.Usage) }

    // A command changes no file but its log and outputs, and ends as it says.
    ensures apart { (command : Command) → command_of words.now ≡ Some command →
        SameBut (R.seen room.old) (R.seen room.new) (touched command) }
    ensures ends { (command : Command) → command_of words.now ≡ Some command → EndsWith words.now command result
        (outcome R.seen R.Out.written R.Out.faults room.old room.new console.old console.new) }

    // Where nothing hinders a command it ends with 0 or 1, or memory ran out.
    ensures complete { (command : Command) → command_of words.now ≡ Some command →
        IsUnhindered words.now command (around R.seen R.Out.written R.Out.faults room.old room.new console.old console.new) →
        (result ≤ 1) ⊎ (result ≡ 8) }

    // So it does over sure objects, which have no fault before they have so many bytes, and with room for what is due.
    ensures sure { (command : Command) → command_of words.now ≡ Some command →
        IsSure words.now command (around R.seen R.Out.written R.Out.faults room.old room.new console.old console.new) →
        (result ≤ 1) ⊎ (result ≡ 8) }

    // Where no count of faults rose, a journal that can't be used is refused with its status.
    ensures misfits { (command : Command) → command_of words.now ≡ Some command → (R.seen room.old).tells ≡ true →
        CountsStayed words.now command (around R.seen R.Out.written R.Out.faults room.old room.new console.old console.new) →
        RefusesMisfits words.now command (R.seen room.old) result }
{
    carry_through(rt, alloc, words, room, console, gate)
}
