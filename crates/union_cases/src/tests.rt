mod fields;
mod limits;
mod many;

const ZOOLOGY: &[u8] =
    b"00065nam a2200049 a 4500001000300000245001200003\x1eb3\x1e00\x1faZoology\x1e\x1d";
