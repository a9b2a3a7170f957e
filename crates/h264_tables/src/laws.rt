//! What holds of the tables of code words. Nothing here runs.
#![tactic(auto)]

ghost use Rattle.std.specs.Prelude.{◌≡◌, ℕ, ℤ, [], ◌++◌};
ghost use Rattle.h264_base.specs.Word.{Word, Words, IsWord};
ghost use Rattle.h264_tables.specs.declared.table.Table.{Table};
ghost use Rattle.h264_tables.specs.Table.{code_table};

/// In each table no word is the first part of another: a word that another one goes on from is that other one (9.1, 9.2).
pub fn prefix_free()
    ensures { (table : Table) (word rest : Word) (v u : ℤ) → IsWord (Words (code_table table)) word v →
        IsWord (Words (code_table table)) (word ++ rest) u → (rest ≡ []) × (v ≡ u) }
{}
