//! The stock of an office: the contents that it keeps, each once.

ghost use Rattle.std.specs.Prelude.{◌≡◌, IfErr, IfOk, None, Some, map};
ghost use Rattle.sql_meaning.specs.Columns.{int_at};
ghost use Rattle.office_contents.specs.Calls.{GoesOnInside};
ghost use Rattle.office_contents.specs.Contents.{Does, RefusesIf};
ghost use Rattle.office_contents.specs.Tables.{contents_of};
ghost use Rattle.office_by_rows.specs.Stock.{stock_by, stock_in};

use office_tables::{TableFault, rows_of_contents, size_in};
use sqlite::{Alter, Row, Transaction};
use std::alloc::Global;
use std::marker::Model;

/// What an office keeps: the different contents of the files of its kept deposits.
#[derive(Clone, Copy, Debug, PartialEq, Eq)]
pub struct Stock {
    /// How many there are.
    pub contents: usize,
    /// How many bytes they have together.
    pub bytes: usize,
}

impl Model for Stock {
    ghost use Rattle.std.specs.Prelude.{ℕ, refl};
    ghost use Rattle.std.specs.Coded.{code_by, coded×, coded_ℕ};
    ghost use Rattle.office_history.specs.Stocks.{Stock as Kept};

    ghost Value = { Kept };

    ghost coded = { code_by (ℕ × ℕ) (coded× coded_ℕ coded_ℕ) (λ (s : Kept). (s.contents, s.bytes)) (λ p. record { contents = p.0; bytes = p.1 }) (λ _. refl) };

    ghost view = { λ s. record { contents = s.contents; bytes = s.bytes } };

    ghost inverse = { λ s. record { contents = s.contents; bytes = s.bytes } };
}

/// The stock of the contents whose sizes the rows show.
///
/// Fails with `Store` where a size is no number from 0 on, and where they come to more bytes than memory could hold.
fn stock_in(rows: &[Row]) -> Result<Stock, TableFault>
    ensures told { IfOk result (λ stock.
        stock_in (map (λ row. int_at row 1) rows.now) ≡ Some stock) }
    ensures store { IfErr result (λ fault. fault ≡ TableFault.Store) }
{
    let mut bytes: usize = 0;
    for row in rows {
        let Ok(more) = usize::try_from(size_in(row)?) else {
            return Err(TableFault::Store);
        };
        let Some(sum) = bytes.checked_add(more) else {
            return Err(TableFault::Store);
        };
        bytes = sum;
    }
    Ok(Stock {
        contents: rows.len(),
        bytes,
    })
}

/// The stock of the office, by the sizes of the contents that its tables hold.
///
/// Fails with `Memory` or `Store`. Where the sizes are no stock, it is `Memory` only if memory ran out in the
/// store.
pub fn stock_of<S: Alter>(_alloc: Global, tx: &mut Transaction<'_, S>) -> Result<Stock, TableFault>
    ensures inside { GoesOnInside S.Store tx.old.conn tx.new.conn result }
    ensures reads { Does S.Store tx.old.conn.now tx.new.conn.now result (λ old new found.
        (new ≡ old) × (stock_by (contents_of old) ≡ Some found)) }
    ensures store { RefusesIf S.Store tx.old.conn.now tx.new.conn.now result (λ old.
        stock_by (contents_of old) ≡ None) }
{
    let rows = rows_of_contents(tx)?;
    stock_in(&rows)
}
