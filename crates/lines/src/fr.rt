// fr as an exact fraction: so many dots for `per` thousandths of a factor.
#[derive(Clone, Copy)]
pub struct Fr {
    pub dots: u32,
    pub per: u32,
}

impl Fr {
    // No dots: nothing grows.
    pub const NONE: Fr = Fr { dots: 0, per: 1000 };
}
