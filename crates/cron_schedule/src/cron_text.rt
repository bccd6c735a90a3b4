//! Reads a cron text: its items with their fields, or its first fault.
ghost use Rattle.std.specs.Prelude.{◌≡◌, ◌==◌, ◌≤◌, length, find, is_none, IfOk};
ghost use Rattle.std.specs.List.{list_any, filter_map};
ghost use Rattle.cron_schedule.specs.declared.fault.ParseFault.TheVariants.{Bad};
ghost use Rattle.cron_schedule.specs.CronText.{fault_at, may_stand, item_at_piece, field_count, place_of, is_free_item, is_free, with_years, free_checked, items_checked, count_checked, cron_parsed, GivesItems};

use super::fault::ParseFault;
use super::item::{FieldItem, Item, Run};
use super::piece::{Piece, bytes_at, is_alone, pieces_of};
use super::reading::read_item;
use job_values::{NoMemory, ScheduleFault, Seq};
use std::alloc::Global;

fn bad(field: u8, place: u32) -> ParseFault
    ensures { result ≡ Bad (fault_at field place) }
{
    ParseFault::Bad(ScheduleFault { field, place })
}

fn may_item_stand(item: &Item, alone: bool) -> bool
    ensures { result ≡ may_stand item.now alone }
{
    match item {
        Item::Values(_) => true,
        Item::Free => alone,
        Item::Last(_) => alone,
        Item::LastWorkday => alone,
        Item::Workday(_) => alone,
        Item::LastWeekday(_) => alone,
        Item::NthWeekday(_, _) => alone,
    }
}

/// The item that the text has at a piece, if it is one of its field.
fn read_piece(text: &[u8], piece: Piece) -> Option<FieldItem>
    ensures { result ≡ item_at_piece text.now piece }
{
    let bytes = bytes_at(text, piece.start as usize);
    match read_item(piece.field, bytes) {
        None => None,
        Some(item) => {
            if may_item_stand(&item, is_alone(text, piece.start)) {
                Some(FieldItem {
                    field: piece.field,
                    item,
                })
            } else {
                None
            }
        }
    }
}

fn count_fields(pieces: &[Piece]) -> u8
    ensures { result ≡ field_count pieces.now }
{
    pieces.iter().fold(0, |_, p| p.field)
}

fn first_of_field(field: u8, pieces: &[Piece]) -> Option<Piece>
    ensures { result ≡ find (λ p. p.field == field) pieces.now }
{
    pieces.iter().copied().find(|p| p.field == field)
}

fn place_of_field(field: u8, pieces: &[Piece]) -> u32
    ensures { result ≡ place_of field pieces.now }
{
    match first_of_field(field, pieces) {
        Some(piece) => piece.start as u32 + 1,
        None => 0,
    }
}

fn first_bad(text: &[u8], pieces: &[Piece]) -> Option<Piece>
    ensures { result ≡ find (λ p. is_none (item_at_piece text.now p)) pieces.now }
{
    pieces
        .iter()
        .copied()
        .find(|p| read_piece(text, *p).is_none())
}

fn items_of(alloc: Global, text: &[u8], pieces: &[Piece]) -> Result<Vec<FieldItem>, NoMemory>
    ensures { IfOk result (λ items. items.items ≡ filter_map (item_at_piece text.now) pieces.now) }
{
    let items = pieces
        .iter()
        .filter_map(|p| read_piece(text, *p))
        .collect(alloc)
        .map_err(|_| NoMemory)?;
    Ok(items)
}

fn is_free_one(item: &Item) -> bool
    ensures { result ≡ is_free_item item.now }
{
    match item {
        Item::Values(_) => false,
        Item::Free => true,
        Item::Last(_) => false,
        Item::LastWorkday => false,
        Item::Workday(_) => false,
        Item::LastWeekday(_) => false,
        Item::NthWeekday(_, _) => false,
    }
}

fn is_free_field(field: u8, items: &[FieldItem]) -> bool
    ensures { result ≡ is_free field items.now }
{
    items
        .iter()
        .any(|i| i.field == field && is_free_one(&i.item))
}

fn has_years(items: &[FieldItem]) -> bool
    ensures { result ≡ list_any (λ i. i.field == 7) items.now }
{
    items.iter().any(|i| i.field == 7)
}

fn add_years(mut items: Vec<FieldItem>) -> Result<Seq<FieldItem>, NoMemory>
    ensures { IfOk result (λ all. all ≡ with_years items.items) }
{
    if !has_years(&items) {
        let every = Run {
            from: 1970,
            to: 2099,
            step: 1,
        };
        let years = FieldItem {
            field: 7,
            item: Item::Values(every),
        };
        items.push(years).map_err(|_| NoMemory)?;
    }
    Ok(Seq::of(items))
}

fn check_free(pieces: &[Piece], items: Vec<FieldItem>) -> Result<Seq<FieldItem>, ParseFault>
    ensures { GivesItems result (free_checked pieces.now items.items) }
{
    if is_free_field(4, &items) != is_free_field(6, &items) {
        match add_years(items) {
            Ok(all) => Ok(all),
            Err(_) => Err(ParseFault::NoMemory),
        }
    } else {
        Err(bad(6, place_of_field(6, pieces)))
    }
}

fn check_items(alloc: Global, text: &[u8], pieces: &[Piece]) -> Result<Seq<FieldItem>, ParseFault>
    ensures { GivesItems result (items_checked text.now pieces.now (find (λ p. is_none (item_at_piece text.now p)) pieces.now)) }
{
    match first_bad(text, pieces) {
        Some(piece) => Err(bad(piece.field, piece.start as u32 + 1)),
        None => match items_of(alloc, text, pieces) {
            Ok(items) => check_free(pieces, items),
            Err(_) => Err(ParseFault::NoMemory),
        },
    }
}

fn check_count(alloc: Global, text: &[u8], pieces: &[Piece]) -> Result<Seq<FieldItem>, ParseFault>
    requires { length text.now ≤ 128 }
    ensures { GivesItems result (count_checked text.now pieces.now) }
{
    let count = count_fields(pieces);
    if count < 6 {
        Err(bad(count + 1, text.len() as u32 + 1))
    } else if count > 7 {
        Err(bad(8, place_of_field(8, pieces)))
    } else {
        check_items(alloc, text, pieces)
    }
}

/// The items of a cron text, each with its field, or its first fault.
pub fn read_cron(alloc: Global, text: &[u8]) -> Result<Seq<FieldItem>, ParseFault>
    requires { length text.now ≤ 128 }
    ensures { GivesItems result (cron_parsed text.now) }
{
    match pieces_of(alloc, text) {
        Err(_) => Err(ParseFault::NoMemory),
        Ok(pieces) => check_count(alloc, text, pieces.as_slice()),
    }
}
