// From filter lists to what is searched.
ghost use Rattle.std.specs.Prelude.{◌≡◌, ◌++◌, [], map, IfOk, OnOk};
ghost use Rattle.std.specs.List.{cons_option};
ghost use Rattle.std.specs.Option.{option_map};
ghost use Rattle.dsn_mask.specs.MaskText.{mask_of, simple_of};
ghost use Rattle.dsn_mask.specs.declared.entry.Entry.TheVariants.{Dots, Plain};
ghost use Rattle.acs_code.specs.Compiled.{compiled, compiled_in};
ghost use Rattle.acs_tree.specs.Comparands.{entries_of, entry_of};
ghost use Rattle.acs_tree.specs.FilterLists.{list_of};

use crate::compiled_list::CompiledList;
use acs_tree::{Form, Ident, Operand, OperandForm, Stmt};
use desk_common::Items;
use dsn_mask::{Entry, FilterIndex, Mask, Simple};
use std::alloc::{AllocError, Global};

/// The filter lists that stand directly in a body, compiled, in their order.
pub fn compiled(alloc: Global, body: &[Stmt]) -> Result<Vec<CompiledList>, AllocError>
    ensures { IfOk result (λ lists. lists.items ≡ compiled_in body.now) }
{
    let mut lists = Vec::new(alloc);
    for stmt in body {
        add_list(alloc, &mut lists, &stmt.form)?;
    }
    Ok(lists)
}

fn add_list(alloc: Global, lists: &mut Vec<CompiledList>, form: &Form) -> Result<(), AllocError>
    ensures { OnOk result (lists.new.items ≡ lists.old.items ++ map compiled (cons_option (list_of form.now) [])) }
{
    match form {
        Form::Filt {
            name,
            include,
            exclude,
            ..
        } => {
            lists.push(list(alloc, *name, include.as_slice(), exclude.as_slice())?)?;
            Ok(())
        }
        _ => Ok(()),
    }
}

fn list(
    alloc: Global,
    name: Ident,
    include: &[Operand],
    exclude: &[Operand],
) -> Result<CompiledList, AllocError>
    ensures { IfOk result
        (λ list. list ≡ compiled (record { name = name; include = include.now; exclude = exclude.now })) }
{
    Ok(CompiledList {
        name,
        dotted: filter(alloc, true, include, exclude)?,
        plain: filter(alloc, false, include, exclude)?,
    })
}

fn filter(
    alloc: Global,
    whole: bool,
    include: &[Operand],
    exclude: &[Operand],
) -> Result<FilterIndex, AllocError>
    ensures { IfOk result (λ index. index ≡ record {
      include = entries_of whole include.now;
      exclude = entries_of whole exclude.now;
    }) }
{
    let include = entries(alloc, whole, include)?;
    let exclude = entries(alloc, whole, exclude)?;
    FilterIndex::build(alloc, include.as_slice(), exclude.as_slice())
}

fn entries(alloc: Global, whole: bool, operands: &[Operand]) -> Result<Items<Entry>, AllocError>
    ensures { IfOk result (λ entries. entries ≡ entries_of whole operands.now) }
{
    let mut entries = Items::new(alloc);
    for operand in operands {
        if let Some(entry) = entry(whole, &operand.form) {
            entries.push(entry)?;
        }
    }
    Ok(entries)
}

fn entry(whole: bool, form: &OperandForm) -> Option<Entry>
    ensures { result ≡ entry_of whole form.now }
{
    match form {
        OperandForm::Literal(text) => Some(Entry::Quoted(*text)),
        OperandForm::Word(word) if whole => dotted(word),
        OperandForm::Word(word) => plain(word),
        OperandForm::Var(_) => None,
    }
}

fn dotted(word: &Ident) -> Option<Entry>
    ensures { result ≡ option_map Dots (mask_of word.now) }
{
    match Mask::parse(word.bytes()) {
        Ok(mask) => Some(Entry::Dots(mask)),
        Err(_) => None,
    }
}

fn plain(word: &Ident) -> Option<Entry>
    ensures { result ≡ option_map Plain (simple_of word.now) }
{
    match Simple::parse(word.bytes()) {
        Ok(simple) => Some(Entry::Plain(simple)),
        Err(_) => None,
    }
}
