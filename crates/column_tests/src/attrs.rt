ghost use Rattle.std.specs.Prelude.{◌≡◌, ◌≤◌, IfOk};
ghost use Rattle.otlp_model.specs.Limits.{weight_limit};
ghost use Rattle.otlp_model.specs.Weight.{total, weight_of_pair};
ghost use Rattle.otap_cells.specs.declared.payload.Kind.TheVariants.{LogAttrs};

use otap_attrs::*;
use otap_cells::{CellView, Kind, LogicalTable, Rows};
use otlp_model::{Items, Pair, Resource, Text, Value, value_weight};
use std::alloc::{AllocError, Global};
use std::test::Fail;

/// What has this pair, if it weighs little.
#[tactic(auto, using(crate::proofs::OnePair::one_pair))]
fn parent(alloc: Global, key: &str, value: Value) -> Result<Resource, AllocError>
    ensures { IfOk result (λ parent. total 32 weight_of_pair parent.pairs ≤ weight_limit) }
{
    if key.len() > 1000 || value_weight(&value) > 1000 {
        return Err(AllocError);
    }
    let key = Text::from_str(alloc, key)?;
    let mut pairs = Items::new(alloc);
    pairs.push(Pair { key, value })?;
    Ok(Resource {
        schema_url: Text::new(alloc),
        dropped: 0,
        pairs,
    })
}

fn text(alloc: Global, text: &str) -> Result<Value, AllocError> {
    Ok(Value::Str(Text::from_str(alloc, text)?))
}

/// The attributes of two log records: b = "y" and a = "x" of the first, and a = "x" of the second.
fn coded_pairs(alloc: Global) -> Result<LogicalTable, AllocError>
    ensures { IfOk result (λ table. table.kind ≡ LogAttrs) }
{
    let x = parent(alloc, "a", text(alloc, "x")?)?;
    let y = parent(alloc, "b", text(alloc, "y")?)?;
    let mut table = LogicalTable::new(alloc, Kind::LogAttrs);
    add_pairs(alloc, &mut table, 0, &y.pairs)?;
    add_pairs(alloc, &mut table, 0, &x.pairs)?;
    add_pairs(alloc, &mut table, 1, &x.pairs)?;
    code_parents(alloc, &mut table)?;
    Ok(table)
}

#[test]
fn rows_that_are_appended_are_sorted_and_coded(rt: HostRuntime) -> Result<(), Fail> {
    let alloc = rt.alloc();
    let table = coded_pairs(alloc)?;
    assert_eq!(rt; table.rows(), 3);
    if table.rows() == 3 {
        assert_eq!(rt; table.cell(0, 1), CellView::Num(1));
        assert_eq!(rt; table.cell(1, 1), CellView::Bytes("a".as_bytes()));
        assert_eq!(rt; table.cell(1, 2), CellView::Bytes("b".as_bytes()));
    }
    Ok(())
}

#[test]
fn an_index_finds_the_pairs_of_a_parent(rt: HostRuntime) -> Result<(), Fail> {
    let alloc = rt.alloc();
    let table = coded_pairs(alloc)?;
    let made = index_pairs(alloc, Kind::LogAttrs, &table, &[Some(0), Some(1)]);
    assert!(rt; made.is_ok());
    if let Ok(index) = made {
        let pairs = index.pairs_of(alloc, &table, 0)?;
        assert_eq!(rt; pairs.len(), 2);
        if let Some(pair) = pairs.get(1) {
            assert_eq!(rt; pair.key.as_str(), "b");
        }
        assert_eq!(rt; index.weight_of(0), 68);
        assert_eq!(rt; index.weight_of(1), 34);
        assert_eq!(rt; index.weight_of(2), 0);
    }
    Ok(())
}

#[test]
fn an_index_needs_each_parent(rt: HostRuntime) -> Result<(), Fail> {
    let alloc = rt.alloc();
    let table = coded_pairs(alloc)?;
    let made = index_pairs(alloc, Kind::LogAttrs, &table, &[Some(0)]);
    assert!(rt; matches!(made, Err(RowRefusal::Orphan)));
    Ok(())
}
