//! The sites of a program, its processes and procedures.

ghost use Rattle.std.specs.Prelude.{◌≡◌, ◌++◌, [], map, IfOk, OnOk};
ghost use Rattle.std.specs.List.{flat_map};
ghost use Rattle.rb_syntax.specs.Plain.{channel_declaration, conversation_declaration, declaration, identifier, procedure_declaration, process_declaration, tree};
ghost use Rattle.rb_scope.specs.Scopes.{procedure_scope, process_scope, program_scope};
ghost use Rattle.rb_scope.specs.Sites.{channel_sites, conversation_sites, member_sites, procedure_sites, process_sites, scope_sites, size_sites, tree_sites};
ghost use Rattle.rb_faults.specs.Finding.{visited};
ghost use Rattle.rb_scope.specs.Memory.{all_held};
ghost use Rattle.rb_faults.specs.Memory.{spot_of};

use crate::finder::Finder;
use crate::lists::{count_channels, count_conversations, count_parameters, count_processes};
use crate::rows::{
    Kind, add_channels, add_parameters, add_procedures, add_processes, add_variables,
    place_conversations,
};
use crate::rules::{count, sum, words_in};
use crate::sites::{channels, uses};
use crate::spot::Spot;
use crate::statement::visit_statements;
use crate::variables::{scope_of, visit_sizes, visit_words};
use rb_base::{Edition, Memory};
use rb_scope::{Declared, Scope, Scopes, Want};
use rb_syntax::{Channel, Conversation, Name, Procedure, Process, Program};
use std::alloc::Global;

/// The scope of a procedure, which is visited, and then its sizes.
#[tactic(auto, using(crate::proofs::Visited::walks))]
fn procedure_scope<'a>(
    alloc: Global,
    procedure: &Procedure<'a>,
    finder: &mut Finder,
) -> Result<Scope<'a>, Memory>
    ensures scope { IfOk result (λ scope. scope ≡ procedure_scope (procedure_declaration procedure.now)) }
    ensures found { OnOk result
        (finder.new ≡ visited finder.old
        (scope_sites [] (procedure_scope (procedure_declaration procedure.now))
        ++ flat_map (λ one. size_sites one.size) (map declaration procedure.now.block.vars.items))) }
{
    let first = count(procedure.params.len())?;
    let mut declared = Vec::new(alloc);
    add_parameters(&mut declared, &procedure.params)?;
    add_variables(&mut declared, Kind::OfCall, first, &procedure.block.vars)?;
    let scope = scope_of(alloc, declared, finder)?;
    visit_sizes(&procedure.block.vars, finder)?;
    Ok(scope)
}

/// Visits the sites of a procedure.
#[tactic(auto, using(crate::proofs::Visited::walks))]
fn visit_procedure<'a>(
    alloc: Global,
    procedure: &Procedure<'a>,
    spot: &Spot<'_, 'a>,
    finder: &mut Finder,
) -> Result<(), Memory>
    ensures { OnOk result (finder.new ≡ visited finder.old (procedure_sites (spot_of spot.now) (procedure_declaration procedure.now))) }
{
    let parameters = count(procedure.params.len())?;
    let variables = words_in(&procedure.block.vars)?;
    let words = sum(parameters, variables)?;
    let taken = sum(spot.taken, words)?;
    count_parameters(&procedure.params, finder)?;
    let scope = procedure_scope(alloc, procedure, finder)?;
    let scopes = Scopes::Within(&scope, spot.scopes);
    let inner = Spot {
        scopes: &scopes,
        taken,
        quantified: spot.quantified,
        in_test: spot.in_test,
    };
    visit_statements(alloc, &procedure.block.body, &inner, finder)
}

/// Visits the sites of procedures in order.
fn visit_procedures<'a>(
    alloc: Global,
    procedures: &[Procedure<'a>],
    spot: &Spot<'_, 'a>,
    finder: &mut Finder,
) -> Result<(), Memory>
    ensures { OnOk result
        (finder.new ≡ visited finder.old (flat_map (procedure_sites (spot_of spot.now)) (map procedure_declaration procedures.now))) }
{
    for procedure in procedures {
        visit_procedure(alloc, procedure, spot, finder)?;
    }
    Ok(())
}

/// The scope of a process, which is visited, and then its sizes.
#[tactic(auto, using(crate::proofs::Visited::walks))]
fn process_scope<'a>(
    alloc: Global,
    process: &Process<'a>,
    finder: &mut Finder,
) -> Result<Scope<'a>, Memory>
    ensures scope { IfOk result (λ scope. scope ≡ process_scope (process_declaration process.now)) }
    ensures found { OnOk result
        (finder.new ≡ visited finder.old
        (scope_sites [] (process_scope (process_declaration process.now))
        ++ flat_map (λ one. size_sites one.size) (map declaration process.now.vars.items))) }
{
    let mut declared = Vec::new(alloc);
    add_variables(&mut declared, Kind::OfProcess, 0, &process.vars)?;
    add_procedures(&mut declared, &process.procedures)?;
    let scope = scope_of(alloc, declared, finder)?;
    visit_sizes(&process.vars, finder)?;
    Ok(scope)
}

/// Visits the sites of a process.
#[tactic(auto, using(crate::proofs::Visited::walks))]
fn visit_process<'a>(
    alloc: Global,
    edition: Edition,
    process: &Process<'a>,
    spot: &Spot<'_, 'a>,
    finder: &mut Finder,
) -> Result<(), Memory>
    ensures { OnOk result (finder.new ≡ visited finder.old (process_sites edition (spot_of spot.now) (process_declaration process.now))) }
{
    let scope = process_scope(alloc, process, finder)?;
    visit_words(edition.most_words(), &process.vars, finder)?;
    let scopes = Scopes::Within(&scope, spot.scopes);
    let inner = Spot {
        scopes: &scopes,
        taken: spot.taken,
        quantified: spot.quantified,
        in_test: spot.in_test,
    };
    visit_procedures(alloc, &process.procedures, &inner, finder)?;
    visit_statements(alloc, &process.body, &inner, finder)
}

/// Visits the sites of processes in order.
fn visit_processes<'a>(
    alloc: Global,
    edition: Edition,
    processes: &[Process<'a>],
    spot: &Spot<'_, 'a>,
    finder: &mut Finder,
) -> Result<(), Memory>
    ensures { OnOk result
        (finder.new ≡ visited finder.old (flat_map (process_sites edition (spot_of spot.now)) (map process_declaration processes.now))) }
{
    for process in processes {
        visit_process(alloc, edition, process, spot, finder)?;
    }
    Ok(())
}

/// Visits the sites of a channel.
fn visit_channel(
    channel: &Channel<'_>,
    spot: &Spot<'_, '_>,
    finder: &mut Finder,
) -> Result<(), Memory>
    ensures { OnOk result
        (finder.new ≡ visited finder.old (channel_sites (spot_of spot.now) (channel_declaration channel.now))) }
{
    uses(finder, Want::AProcess, channel.sender, spot.scopes)?;
    uses(finder, Want::AProcess, channel.receiver, spot.scopes)?;
    channels(finder, channel.size)
}

/// Visits the sites of channels in order.
#[tactic(auto, using(crate::proofs::Visited::walks))]
fn visit_channels(
    all: &[Channel<'_>],
    spot: &Spot<'_, '_>,
    finder: &mut Finder,
) -> Result<(), Memory>
    ensures { OnOk result
        (finder.new ≡ visited finder.old (flat_map (channel_sites (spot_of spot.now)) (map channel_declaration all.now))) }
{
    let mut rest = all;
    'channels: while let [channel, after @ ..] = rest {
        visit_channel(channel, spot, finder)?;
        rest = after;
    }
    Ok(())
}

/// Visits the members of a conversation in order.
fn visit_members(
    members: &[Name<'_>],
    spot: &Spot<'_, '_>,
    finder: &mut Finder,
) -> Result<(), Memory>
    ensures { OnOk result
        (finder.new ≡ visited finder.old (member_sites (spot_of spot.now) (map identifier members.now))) }
{
    for name in members {
        uses(finder, Want::AProcess, *name, spot.scopes)?;
    }
    Ok(())
}

/// Visits the sites of a conversation.
fn visit_conversation(
    conversation: &Conversation<'_>,
    spot: &Spot<'_, '_>,
    finder: &mut Finder,
) -> Result<(), Memory>
    ensures { OnOk result
        (finder.new ≡ visited finder.old (conversation_sites (spot_of spot.now) (conversation_declaration conversation.now))) }
{
    visit_members(&conversation.members, spot, finder)
}

/// Visits the sites of conversations in order.
fn visit_conversations(
    all: &[Conversation<'_>],
    spot: &Spot<'_, '_>,
    finder: &mut Finder,
) -> Result<(), Memory>
    ensures { OnOk result
        (finder.new ≡ visited finder.old (flat_map (conversation_sites (spot_of spot.now)) (map conversation_declaration all.now))) }
{
    for conversation in all {
        visit_conversation(conversation, spot, finder)?;
    }
    Ok(())
}

/// The declarations of the program.
fn program_declared<'a>(alloc: Global, program: &Program<'a>) -> Result<Vec<Declared<'a>>, Memory>
    ensures { IfOk result (λ declared. all_held declared.items ≡ program_scope (tree program.now)) }
{
    let mut declared = Vec::new(alloc);
    add_channels(&mut declared, &program.channels)?;
    place_conversations(&mut declared, &program.conversations)?;
    add_processes(&mut declared, &program.processes)?;
    Ok(declared)
}

/// Visits all sites of a program.
#[tactic(auto, using(crate::proofs::Visited::walks))]
pub(crate) fn visit_program<'a>(
    alloc: Global,
    program: &Program<'a>,
    finder: &mut Finder,
) -> Result<(), Memory>
    ensures { OnOk result (finder.new ≡ visited finder.old (tree_sites (tree program.now))) }
{
    let declared = program_declared(alloc, program)?;
    let scope = scope_of(alloc, declared, finder)?;
    count_channels(&program.channels, finder)?;
    count_conversations(&program.conversations, finder)?;
    count_processes(program.edition, &program.processes, finder)?;
    let outside = Scopes::None;
    let scopes = Scopes::Within(&scope, &outside);
    let spot = Spot {
        scopes: &scopes,
        taken: 0,
        quantified: 0,
        in_test: false,
    };
    visit_channels(&program.channels, &spot, finder)?;
    visit_conversations(&program.conversations, &spot, finder)?;
    visit_processes(alloc, program.edition, &program.processes, &spot, finder)
}
