//! The kinds of controls.

/// A kind of control.
#[derive(Clone, Copy, Debug)]
pub enum Control {
    Label,
    Button,
    TextInput,
    Slider,
    Checkbox,
    DatePicker,
    Gallery,
}
