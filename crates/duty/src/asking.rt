// One of several is asked for, an event or a relation, to be told in lent places.
ghost use Rattle.std.specs.Prelude.{◌≡◌, not, ltb, IfOk};
ghost use Rattle.rules.specs.Numbers.{◌if◌, ◌else◌};
ghost use Rattle.rules.specs.Fields.{bit};
ghost use Rattle.rules.specs.Results.{number_of};
ghost use Rattle.rules.specs.Holds.{relation_of, record_of};
ghost use Rattle.rules.specs.Judge.{event_number};
ghost use Rattle.rules.specs.Image.{read_table, class_byte};
ghost use Rattle.rules.specs.Images.{table_of, marking_of, images_number, record_fields};
ghost use Rattle.rules.specs.Building.{numbers_from, class_told_number};

use rules::Refusal;

// The five numbers of a relation of a table.
pub fn relation(table: &[u8], relation: usize) -> Result<[u32; 5], Refusal>
    ensures number { number_of result ≡ ((read_table table.now).number else 8 if not (ltb relation (table_of table.now).count)) }
    ensures numbers { IfOk result (λ numbers. numbers ≡ numbers_from (relation_of (table_of table.now) relation)) }
{
    let t = image::read_table(table)?;
    image::judging::exists(relation, t.count)?;
    let k = t.relations[relation];
    Ok([
        k.kind as u32,
        k.left as u32,
        k.right as u32,
        k.bounded as u32,
        k.time,
    ])
}

// The class byte of an event of a table.
pub fn class(table: &[u8], event: usize) -> Result<u8, Refusal>
    ensures number { number_of result ≡ class_told_number table.now event }
    ensures byte { IfOk result (λ byte. byte ≡ class_byte (table_of table.now) event) }
{
    let t = image::read_table(table)?;
    image::judging::exists(event, t.events)?;
    Ok(table[4 + event])
}

// Whether a table is firm.
pub fn firm(table: &[u8]) -> Result<u32, Refusal>
    ensures number { number_of result ≡ (read_table table.now).number }
    ensures firm { IfOk result (λ firm. firm ≡ bit (table_of table.now).firm) }
{
    let t = image::read_table(table)?;
    Ok(t.firm as u32)
}

// The seven fields of the record of an event.
pub fn record(table: &[u8], marking: &[u8], event: usize) -> Result<[u32; 7], Refusal>
    ensures number { number_of result ≡ (images_number table.now marking.now else event_number (table_of table.now) event) }
    ensures fields { IfOk result (λ fields. fields ≡ record_fields (record_of (marking_of table.now marking.now) event)) }
{
    let t = image::read_table(table)?;
    let m = image::read_marking(t.events, marking)?;
    image::judging::exists(event, t.events)?;
    let r = m.records[event];
    Ok([
        r.happened as u32,
        r.age,
        r.included as u32,
        r.pending as u32,
        r.bounded as u32,
        r.deadline,
        r.count,
    ])
}
