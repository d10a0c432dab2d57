//! The cells that rules mean.
ghost use Rattle.std.specs.Prelude.{◌≡◌, ◌++◌, [], ◌∷◌, map, IfOk, OnOk};
ghost use Rattle.kj_value.specs.Seen.{json};
ghost use Rattle.struct_schema.specs.Shape.{properties, shapes_of, shape_at, no_shapes};
ghost use Rattle.struct_schema.specs.ShapeOf.{shape_of, named_shape};
ghost use Rattle.hub_cells.specs.Side.{spoke};
ghost use Rattle.hub_cells.specs.Cell.{spoke_only, hub_only, split, table};
ghost use Rattle.hub_cells.specs.Pairs.{values_of};
ghost use Rattle.hub_cells.specs.Seen.{kind, place, place_list, cell};
ghost use Rattle.hub_rules.specs.Rule.{rules_of, names_on};
ghost use Rattle.hub_rules.specs.Seen.{rule};
ghost use Rattle.hub_fit.specs.Chosen.{place_at, places_at, cell_at, with_cell, cells_before, free_cells, free_in, cells_of};

use hub_cells::{Cell, CellKind, Name, Names, Pair, PairItems, Side};
use hub_rules::{AnyNode, Line, is_required, is_ruled, node_at};
use kj_value::{JVal, NoMemory, Txt, copy};
use std::alloc::Global;
use struct_schema::{Schema, SchemaField, copy_schema};

fn name(alloc: Global, s: &Schema, text: &Txt, any: &AnyNode) -> Result<Name, NoMemory>
    ensures { IfOk result (λ n. place n ≡ place_at (shape_of s.now) text.now.bytes) }
{
    let required = is_required(text, s);
    let own = Txt::of(alloc, text.as_str())?;
    match copy_schema(alloc, node_at(s, text, any)) {
        Err(e) => Err(e),
        Ok(schema) => Ok(Name {
            text: own,
            schema,
            required,
        }),
    }
}

fn one(alloc: Global, s: &Schema, a: &Txt, any: &AnyNode) -> Result<Names, NoMemory>
    ensures { IfOk result (λ ns. place_list ns ≡ places_at (shape_of s.now) (a.now.bytes ∷ [])) }
{
    match name(alloc, s, a, any) {
        Err(e) => Err(e),
        Ok(n) => Ok(Names::One(n)),
    }
}

fn two(alloc: Global, s: &Schema, a: &Txt, b: &Txt, any: &AnyNode) -> Result<Names, NoMemory>
    ensures { IfOk result (λ ns. place_list ns
        ≡ places_at (shape_of s.now) (a.now.bytes ∷ b.now.bytes ∷ [])) }
{
    match name(alloc, s, a, any) {
        Err(e) => Err(e),
        Ok(first) => match name(alloc, s, b, any) {
            Err(e) => {
                drop(first);
                Err(e)
            }
            Ok(second) => Ok(Names::Two(first, second)),
        },
    }
}

fn copy_values(alloc: Global, spoke: &JVal, hub: &JVal) -> Result<Pair, NoMemory>
    ensures { IfOk result (λ p. values_of p ≡ (json spoke.now, json hub.now)) }
{
    match copy(alloc, spoke) {
        Err(e) => Err(e),
        Ok(spoke) => match copy(alloc, hub) {
            Err(e) => {
                drop(spoke);
                Err(e)
            }
            Ok(hub) => Ok(Pair { spoke, hub }),
        },
    }
}

fn copy_pairs(alloc: Global, pairs: &PairItems) -> Result<PairItems, NoMemory>
    ensures { IfOk result (λ ps. ps ≡ pairs.now) }
{
    let mut copies = PairItems::new(alloc);
    for p in pairs.as_slice() {
        copies.push(copy_values(alloc, &p.spoke, &p.hub)?)?;
    }
    copies.indexed(alloc)
}

fn table_kind(alloc: Global, pairs: &PairItems, x: &JVal, y: &JVal) -> Result<CellKind, NoMemory>
    ensures { IfOk result (λ k. kind k ≡ table pairs.now (json x.now) (json y.now)) }
{
    match copy_pairs(alloc, pairs) {
        Err(e) => Err(e),
        Ok(pairs) => match copy_values(alloc, x, y) {
            Err(e) => {
                drop(pairs);
                Err(e)
            }
            Ok(Pair { spoke, hub }) => Ok(CellKind::Table {
                pairs,
                spoke_blank: spoke,
                hub_blank: hub,
            }),
        },
    }
}

fn push(c: Cell, cells: &mut Vec<Cell>) -> Result<(), NoMemory>
    ensures { OnOk result (map cell cells.new.items ≡ map cell cells.old.items ++ cell c ∷ []) }
{
    cells.push(c)?;
    Ok(())
}

// A cell of one name on each side.
fn push_pair(
    alloc: Global,
    a: &Txt,
    b: &Txt,
    of: CellKind,
    s: &Schema,
    h: &Schema,
    depth: u32,
    any: &AnyNode,
    cells: &mut Vec<Cell>,
) -> Result<(), NoMemory>
    ensures { OnOk result (map cell cells.new.items ≡ map cell cells.old.items
        ++ cell_at depth (shape_of s.now) (shape_of h.now)
        (a.now.bytes ∷ []) (b.now.bytes ∷ []) (kind of) ∷ []) }
{
    match one(alloc, s, a, any) {
        Err(e) => {
            drop(of);
            Err(e)
        }
        Ok(spoke) => match one(alloc, h, b, any) {
            Err(e) => {
                drop(of);
                drop(spoke);
                Err(e)
            }
            Ok(hub) => {
                let c = Cell {
                    spoke,
                    hub,
                    kind: of,
                    depth,
                };
                push(c, cells)
            }
        },
    }
}

// A cell of one name of the spoke's.
fn push_spoke_only(
    alloc: Global,
    a: &Txt,
    s: &Schema,
    depth: u32,
    any: &AnyNode,
    cells: &mut Vec<Cell>,
) -> Result<(), NoMemory>
    ensures { OnOk result (map cell cells.new.items ≡ map cell cells.old.items ++ record {
      spoke = places_at (shape_of s.now) (a.now.bytes ∷ []);
      hub = [];
      kind = spoke_only;
      depth = depth;
    } ∷ []) }
{
    match one(alloc, s, a, any) {
        Err(e) => Err(e),
        Ok(spoke) => {
            let c = Cell {
                spoke,
                hub: Names::Empty,
                kind: CellKind::SpokeOnly,
                depth,
            };
            push(c, cells)
        }
    }
}

// A cell of one name of the hub's.
fn push_hub_only(
    alloc: Global,
    b: &Txt,
    h: &Schema,
    depth: u32,
    any: &AnyNode,
    cells: &mut Vec<Cell>,
) -> Result<(), NoMemory>
    ensures { OnOk result (map cell cells.new.items ≡ map cell cells.old.items ++ record {
      spoke = [];
      hub = places_at (shape_of h.now) (b.now.bytes ∷ []);
      kind = hub_only;
      depth = depth;
    } ∷ []) }
{
    match one(alloc, h, b, any) {
        Err(e) => Err(e),
        Ok(hub) => {
            let c = Cell {
                spoke: Names::Empty,
                hub,
                kind: CellKind::HubOnly,
                depth,
            };
            push(c, cells)
        }
    }
}

// A cell of one name of the spoke's and two of the hub's.
fn push_split(
    alloc: Global,
    a: &Txt,
    b: &Txt,
    c: &Txt,
    s: &Schema,
    h: &Schema,
    depth: u32,
    any: &AnyNode,
    cells: &mut Vec<Cell>,
) -> Result<(), NoMemory>
    ensures { OnOk result (map cell cells.new.items ≡ map cell cells.old.items
        ++ cell_at depth (shape_of s.now) (shape_of h.now)
        (a.now.bytes ∷ []) (b.now.bytes ∷ c.now.bytes ∷ []) split ∷ []) }
{
    match one(alloc, s, a, any) {
        Err(e) => Err(e),
        Ok(spoke) => match two(alloc, h, b, c, any) {
            Err(e) => {
                drop(spoke);
                Err(e)
            }
            Ok(hub) => {
                let c = Cell {
                    spoke,
                    hub,
                    kind: CellKind::Split,
                    depth,
                };
                push(c, cells)
            }
        },
    }
}

// The cell of a rule, where it has one.
fn push_cell(
    alloc: Global,
    line: &Line,
    s: &Schema,
    h: &Schema,
    depth: u32,
    any: &AnyNode,
    cells: &mut Vec<Cell>,
) -> Result<(), NoMemory>
    ensures { OnOk result (map cell cells.new.items ≡ map cell cells.old.items
        ++ with_cell depth (shape_of s.now) (shape_of h.now) (rule line.now) []) }
{
    match line {
        Line::Same { spoke: a, hub: b } => {
            push_pair(alloc, a, b, CellKind::Same, s, h, depth, any, cells)
        }
        Line::Object { .. } => Ok(()),
        Line::SpokeOnly { name: a } => push_spoke_only(alloc, a, s, depth, any, cells),
        Line::HubOnly { name: b } => push_hub_only(alloc, b, h, depth, any, cells),
        Line::Split {
            spoke: a,
            first: b,
            second: c,
        } => push_split(alloc, a, b, c, s, h, depth, any, cells),
        Line::Table {
            spoke: a,
            hub: b,
            pairs,
            spoke_blank: x,
            hub_blank: y,
        } => match table_kind(alloc, pairs, x, y) {
            Err(e) => Err(e),
            Ok(of) => push_pair(alloc, a, b, of, s, h, depth, any, cells),
        },
        Line::Scale {
            spoke: a,
            hub: b,
            by,
        } => push_pair(
            alloc,
            a,
            b,
            CellKind::Scale { by: *by },
            s,
            h,
            depth,
            any,
            cells,
        ),
    }
}

fn rule_cells(
    alloc: Global,
    lines: &[Line],
    s: &Schema,
    h: &Schema,
    depth: u32,
    any: &AnyNode,
) -> Result<Vec<Cell>, NoMemory>
    ensures { IfOk result (λ cs. map cell cs.items ≡ cells_before depth (shape_of s.now) (shape_of h.now)
        (rules_of (map rule lines.now)) []) }
{
    let mut cells = Vec::new(alloc);
    for line in lines {
        push_cell(alloc, line, s, h, depth, any, &mut cells)?;
    }
    Ok(cells)
}

// The cell of a name that no rule has.
fn push_free_cell(
    alloc: Global,
    lines: &[Line],
    f: &SchemaField,
    s: &Schema,
    h: &Schema,
    depth: u32,
    any: &AnyNode,
    cells: &mut Vec<Cell>,
) -> Result<(), NoMemory>
    ensures { OnOk result (map cell cells.new.items ≡ map cell cells.old.items
        ++ free_cells depth (shape_of s.now) (shape_of h.now)
        (names_on spoke (rules_of (map rule lines.now)))
        (shape_at f.now.name.bytes (shape_of f.now.schema) no_shapes)) }
{
    if is_ruled(lines, Side::Spoke, f.name.as_str()) {
        Ok(())
    } else {
        push_pair(
            alloc,
            &f.name,
            &f.name,
            CellKind::Same,
            s,
            h,
            depth,
            any,
            cells,
        )
    }
}

// The cells of the names that no rule has.
fn push_free(
    alloc: Global,
    lines: &[Line],
    fields: &[SchemaField],
    s: &Schema,
    h: &Schema,
    depth: u32,
    any: &AnyNode,
    cells: &mut Vec<Cell>,
) -> Result<(), NoMemory>
    ensures { OnOk result (map cell cells.new.items ≡ map cell cells.old.items
        ++ free_cells depth (shape_of s.now) (shape_of h.now)
        (names_on spoke (rules_of (map rule lines.now))) (shapes_of (map named_shape fields.now))) }
{
    for f in fields {
        push_free_cell(alloc, lines, f, s, h, depth, any, cells)?;
    }
    Ok(())
}

pub(crate) fn cells(
    alloc: Global,
    lines: &[Line],
    s: &Schema,
    h: &Schema,
    depth: u32,
    any: &AnyNode,
) -> Result<Vec<Cell>, NoMemory>
    ensures { IfOk result (λ cs. map cell cs.items ≡ cells_of depth (shape_of s.now) (shape_of h.now)
        (rules_of (map rule lines.now))) }
{
    let mut cells = rule_cells(alloc, lines, s, h, depth, any)?;
    match &s.properties {
        None => Ok(cells),
        Some(named) => {
            push_free(alloc, lines, named.as_slice(), s, h, depth, any, &mut cells)?;
            Ok(cells)
        }
    }
}
