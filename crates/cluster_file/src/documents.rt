ghost use Rattle.std.specs.Prelude.{◌≡◌, [], map};
ghost use Rattle.grid_model.specs.Documents.{IsOne};
ghost use Rattle.script_lang.specs.Whys.{number_of};
ghost use Rattle.cluster_file.specs.Lines.{line_of};
ghost use Rattle.cluster_file.specs.Doc.{at_line, is_whole, close, pieces_from, blank, document_of, doc, GivesDoc};

use crate::drafts::{Draft, Part};
use crate::lines::line_of;
use crate::whys::{DocEnd, Refusal};
use grid_model::{Document, ItemList, ScriptList};
use placement::{Cluster, Places};
use score_base::{Members, WriteList};
use script_lang::words::{NodeCount, pieces};
use script_lang::{LineEnd, Why};
use std::alloc::Global;
use std::collections::BTreeSet;

/// The refusal of the line of this number.
fn refused(n: usize, why: Why) -> DocEnd
    ensures { result ≡ DocEnd.Refused (record { line = n; why = number_of why }) }
{
    DocEnd::Refused(Refusal {
        line: n,
        why: why.number(),
    })
}

fn line_at(alloc: Global, draft: Draft, n: usize, line: &[u8]) -> Result<Draft, DocEnd>
    ensures { GivesDoc result (at_line n (line_of draft line.now)) }
{
    match line_of(alloc, draft, line) {
        Ok(next) => Ok(next),
        Err(LineEnd::Memory) => Err(DocEnd::Memory),
        Err(LineEnd::Why(why)) => Err(refused(n, why)),
    }
}

fn close(draft: Draft, n: usize, tail: &[u8]) -> Result<Draft, DocEnd>
    ensures { GivesDoc result (at_line n (close draft tail.now)) }
{
    if tail.is_empty() && draft.part == Part::Items {
        Ok(draft)
    } else {
        Err(refused(n, Why::Missing))
    }
}

fn blank(alloc: Global) -> Draft
    ensures { result ≡ blank }
{
    Draft {
        part: Part::Start,
        nodes: NodeCount::new(0),
        places: Members::new(alloc),
        inits: WriteList::new(alloc),
        scripts: ScriptList::new(alloc),
        script: None,
        items: ItemList::new(alloc),
        events: 0,
        known: BTreeSet::new(alloc),
        numbers: BTreeSet::new(alloc),
    }
}

#[tactic(auto, unfolding(crate::specs::Doc::pieces_from))]
fn read_pieces(alloc: Global, pieces: &[&[u8]]) -> Result<Draft, DocEnd>
    ensures { GivesDoc result (pieces_from blank 1 (map (λ w. w.now) pieces.now)) }
{
    let mut draft = blank(alloc);
    let mut n = 1;
    let mut lines = pieces;
    while let [line, rest @ ..] = lines {
        if rest.is_empty() {
            return close(draft, n, line);
        }
        draft = line_at(alloc, draft, n, line)?;
        n += 1;
        lines = rest;
    }
    Err(refused(n, Why::Missing))
}

fn document_of(draft: Draft) -> Document
    requires { IsOne (document_of draft) }
    ensures { result ≡ document_of draft }
{
    Document {
        cluster: Cluster {
            nodes: draft.nodes.get(),
            places: Places::new(draft.places.into_vec()),
            inits: draft.inits,
        },
        scripts: draft.scripts,
        items: draft.items,
    }
}

/// The document that the text spells. `Refused` exactly where it spells none, with the first line at
/// fault and why.
#[tactic(auto, unfolding(crate::specs::Doc::doc))]
pub fn read_document(alloc: Global, text: &[u8]) -> Result<Document, DocEnd>
    ensures { GivesDoc result (doc text.now) }
{
    let Ok(pieces) = pieces(alloc, text, b'\n') else {
        return Err(DocEnd::Memory);
    };
    let draft = read_pieces(alloc, pieces.as_slice())?;
    Ok(document_of(draft))
}
