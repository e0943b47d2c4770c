/// The mark of a record that is a catalogue.
pub const CATALOGUE_MARK: u8 = b'c';

/// The mark of a record of the base, which stands right behind the first catalogue.
pub const BASE_MARK: u8 = b'b';

/// The mark of a record that is a line: an operation.
pub const OPERATION_MARK: u8 = b'o';
