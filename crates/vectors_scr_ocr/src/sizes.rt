// The size pair of block counts.
use reg_size::SizePair;
use std::io;

const BLOCKS: [u32; 18] = [
    0, 2, 4, 64, 8192, 16384, 16388, 16392, 28800, 32784, 59776, 65528, 65536, 121856, 246016,
    2097152, 2097153, 4194304,
];

pub fn run(rt: &impl Print) -> io::Result<()> {
    for blocks in BLOCKS {
        match reg_size::size_pair(blocks) {
            Some(
                SizePair {
                    c_size,
                    c_size_mult,
                },
            ) => println!(rt;
                "blocks {blocks:08X} C_SIZE {c_size:04X} C_SIZE_MULT {c_size_mult:02X}"
            )?,
            None => println!(rt; "blocks {blocks:08X} no pair")?,
        }
    }
    Ok(())
}
