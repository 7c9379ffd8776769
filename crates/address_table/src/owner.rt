use wire_ids::Eui;

/// Who has an address: a device of the tables by its number, a visitor by its DevEUI, or an open
/// ask by its number.
#[derive(Clone, Copy)]
pub enum Owner {
    Device(u32),
    Visitor(Eui),
    Ask(u64),
}
